use std::marker::Brand;

/// Names what holds of a keeper that is whole, ever since an identity was put over it. The caller of a function that is
/// generic in it picks it.
pub trait Since {
    ghost holds: { Type 0 };
}

impl Since for Brand {
    ghost holds = { Unit {0} };
}
