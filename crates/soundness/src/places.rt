// Where every so many-th data buffer of a node stands: at most 256 places, so that each of up to 65,535 is found in a
// few steps. The places are an array of fixed size, since the shelf has no heap.
#[derive(Clone, Copy)]
pub struct Places {
    pub stride: usize,
    pub marks: [usize; 256],
}
