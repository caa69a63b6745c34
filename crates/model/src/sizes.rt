// How many records each table of an index has.

#[derive(Clone, Copy)]
pub struct Sizes {
    pub stations: usize,
    pub marks: usize,
    pub keys: usize,
    pub sections: usize,
    pub legs: usize,
    pub spare: usize,
    pub labels: usize,
}
