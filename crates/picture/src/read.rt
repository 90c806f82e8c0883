// What the fields of a picture give. Their order is in specs/Read, the code that reads them in picture_reader.

// Where reading a picture fails, whichever input it is: the number of the question answered no, and how many rows were
// read before its field. Else there is its row count.
#[derive(Clone, Copy, PartialEq, Eq, Debug)]
pub struct Failure {
    pub number: u8,
    pub rows: usize,
}
