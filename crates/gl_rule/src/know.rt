/// What a seat knows. No value of it is made.
use std::marker::Model;

pub struct Know;

impl Model for Know {
    ghost use Rattle.gl_rule.specs.View.{View, blank};

    ghost Value = { View };

    ghost use Rattle.std.specs.Prelude.{[]};

    ghost view = { λ _. blank [] };
}
