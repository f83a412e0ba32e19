// The order among the rows.
ghost use Rattle.gl_picture.specs.Order.{OrderIsKept};

/// A law: where a row synchronizes with a later one, it cannot be that no way leads there, down the columns and along arrows.
pub fn arrows_keep_order()
    ensures { OrderIsKept }
{}
