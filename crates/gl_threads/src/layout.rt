ghost use Rattle.std.specs.Prelude.{◌≡◌, ◌==◌, ◌≤◌, ◌<◌, map, length, IfOk, OnOk, ◌++◌, ◌∷◌, [], if◌then◌else◌};
ghost use Rattle.std.specs.List.{All};
ghost use Rattle.gl_model.specs.declared.limits.TheConstants.{FUNCTIONS};
ghost use Rattle.gl_bytecode.specs.Instructions.{args_of};
ghost use Rattle.gl_bytecode.specs.Lawful.{forkable_of, setting_of};
ghost use Rattle.gl_bytecode.specs.Programs.{function_at};
ghost use Rattle.gl_table.specs.KeyOf.{setting_of_layout};

use gl_bytecode::Program;
use gl_model::{CLASSES, Classes, Inputs};
use gl_segments::Ring;
use gl_table::Layout;
use std::alloc::{AllocError, Global};

// The classes of a program.
fn classes_of(alloc: Global, program: &Program) -> Result<Classes, AllocError>
    requires { length program.now.classes ≤ 64 }
    ensures { IfOk result (λ v. v ≡ map (λ c. (c.plain, c.volatile)) program.now.classes) }
{
    let mut classes = Classes::empty(alloc);
    for c in 0..CLASSES {
        match program.class_of(c) {
            Some((plain, volatile)) => classes.push(plain, volatile)?,
            None => return Ok(classes),
        }
    }
    Ok(classes)
}

// The functions that a thread may be forked with.
fn starts_of(alloc: Global, program: &Program) -> Result<Vec<u16>, AllocError>
    ensures { IfOk result (λ v. v.items ≡ forkable_of program.now) }
{
    let mut starts = Vec::new(alloc);
    for f in 0..program.functions() {
        add_start(&mut starts, program, f)?;
    }
    Ok(starts)
}

// Adds the function, if a thread may be forked with it.
fn add_start(starts: &mut Vec<u16>, program: &Program, f: u16) -> Result<(), AllocError>
    ensures { OnOk result (starts.new.items ≡ starts.old.items ++ (if args_of (function_at program.now f) == 1 then f ∷ [] else [])) }
{
    if program.args(f) == 1 {
        starts.push(f)?;
    }
    Ok(())
}

/// What a table is set up with for a run of the program.
pub(crate) fn layout_of(
    alloc: Global,
    program: &Program,
    inputs: Inputs,
    ring: Ring,
) -> Result<Layout, AllocError>
    ensures setting { IfOk result (λ l. setting_of_layout l ≡ setting_of program.now inputs) }
    ensures inputs { IfOk result (λ l. l.inputs ≡ inputs) }
    ensures ring { IfOk result (λ l. l.ring ≡ ring) }
    ensures main { IfOk result (λ l. l.main < FUNCTIONS) }
    ensures starts { IfOk result (λ l. All (λ f. f < FUNCTIONS) l.starts.items) }
{
    let main = program.main();
    Ok(Layout {
        classes: classes_of(alloc, program)?,
        inputs,
        main,
        starts: starts_of(alloc, program)?,
        ring,
    })
}
