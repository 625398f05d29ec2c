// Points and boundaries in the plane. This crate has definitions and laws; crate plane has the code.
#![tactic(auto)]

// A point of the plane, in whole centimetres. Its height is y.
#[derive(Clone, Copy)]
pub struct Point {
    pub x: i32,
    pub y: i32,
}

// Where a point lies to a boundary.
#[derive(Clone, Copy, PartialEq, Eq)]
pub enum Place {
    Outside,
    Inside,
    Edge,
}

// Where a point lies, and the number of the corner nearest to it.
#[derive(Clone, Copy)]
pub struct Located {
    pub place: Place,
    pub nearest: usize,
}
