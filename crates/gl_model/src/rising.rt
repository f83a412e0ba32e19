ghost use Rattle.std.specs.Prelude.{◌≡◌, ◌↔◌, ℕ, ◌+◌, ◌*◌, ◌<◌, ◌≤◌, [], ◌∷◌, ◌++◌, length, take, drop, slice_index, slice_range, IsTrue, IfSome, MatchOption, Contains};
ghost use Rattle.gl_model.specs.Rising.{Rises, with_all};

/// The place of x among the ids, which rise: how many of them are below it.
pub(crate) fn place_among(ids: &[u16], x: u16) -> usize
    ensures within { result ≤ length ids.now }
    ensures below { (k : ℕ) → k < result → slice_index ids.now k < x }
    ensures here { result < length ids.now → x ≤ slice_index ids.now result }
{
    for (i, y) in ids.iter().enumerate() {
        if x <= *y {
            return i;
        }
    }
    ids.len()
}

/// The same place, where the ids rise: x is looked for among them only where it is not above the last.
pub(crate) fn place_in(ids: &[u16], x: u16) -> usize
    requires { Rises ids.now }
    ensures within { result ≤ length ids.now }
    ensures below { (k : ℕ) → k < result → slice_index ids.now k < x }
    ensures here { result < length ids.now → x ≤ slice_index ids.now result }
{
    let len = ids.len();
    if len > 0 && ids[len - 1] < x {
        return len;
    }
    place_among(ids, x)
}

// The first number of a list, and what is behind it.
fn first_of(list: &[u16]) -> Option<(u16, &[u16])>
    ensures { MatchOption result (list.now ≡ []) (λ x. list.now ≡ x.0 ∷ x.1.now) }
{
    match list {
        [] => None,
        [x, behind @ ..] => Some((*x, behind)),
    }
}

// The least number at the front of two lists that rise, and what is left of both behind it.
fn split_least<'a>(left: &'a [u16], right: &'a [u16]) -> Option<(u16, &'a [u16], &'a [u16])>
    requires left { Rises left.now }
    requires right { Rises right.now }
    ensures least { MatchOption result (with_all right.now left.now ≡ []) (λ x. with_all right.now left.now ≡ x.0 ∷ with_all x.2.now x.1.now) }
    ensures rise { IfSome result (λ x. Rises x.1.now × Rises x.2.now) }
    ensures fewer { IfSome result (λ x. length x.1.now + length x.2.now < length left.now + length right.now) }
{
    match (first_of(left), first_of(right)) {
        (None, None) => None,
        (Some((x, more)), None) => Some((x, more, right)),
        (None, Some((y, others))) => Some((y, left, others)),
        (Some((x, more)), Some((y, others))) => {
            if x < y {
                Some((x, more, right))
            } else if y < x {
                Some((y, left, others))
            } else {
                Some((x, more, others))
            }
        }
    }
}

/// Puts the numbers of two lists that rise at the head of an array, each once, so that they rise: how many there are, or `None` where
/// there is no room for all.
pub(crate) fn merge(left: &[u16], right: &[u16], all: &mut [u16]) -> Option<usize>
    requires left { Rises left.now }
    requires right { Rises right.now }
    ensures merged { MatchOption result (length all.old < length (with_all right.now left.now)) (λ n. take n all.new ≡ with_all right.now left.now) }
    ensures within { IfSome result (λ n. n ≤ length all.old) }
    ensures rest { IfSome result (λ n. drop n all.new ≡ drop n all.old) }
{
    let mut count = 0;
    let mut rest = left;
    let mut others = right;
    while let Some((least, behind, others_behind)) = split_least(rest, others) {
        if count == all.len() {
            return None;
        }
        all[count] = least;
        count += 1;
        rest = behind;
        others = others_behind;
    }
    Some(count)
}

/// Puts x at place i of the first parts, and moves those behind it up by one.
pub(crate) fn put_among<T: Copy>(parts: &mut [T], len: usize, i: usize, x: T)
    requires place { i ≤ len }
    requires room { len < length parts.old }
    ensures parts { take (len + 1) parts.new ≡ take i parts.old ++ x ∷ slice_range parts.old i len }
    ensures rest { drop (len + 1) parts.new ≡ drop (len + 1) parts.old }
{
    let mut carried = x;
    for j in i..len {
        let next = parts[j];
        parts[j] = carried;
        carried = next;
    }
    parts[len] = carried;
}

/// Whether the number is among them.
pub(crate) fn is_among(ids: &[u16], x: u16) -> bool
    ensures { IsTrue result ↔ Contains ids.now x }
{
    ids.contains(&x)
}

/// Whether some number is among both.
pub(crate) fn meet(ids: &[u16], others: &[u16]) -> bool
    ensures { IsTrue result ↔ ((x : ℕ) × Contains ids.now x × Contains others.now x) }
{
    for x in ids {
        if is_among(others, *x) {
            return true;
        }
    }
    false
}
