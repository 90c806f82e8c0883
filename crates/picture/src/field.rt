// What one field of a picture is. Its questions are in specs/Questions, the code that asks them in picture_reader.

// What stands where a field is to begin: a row with its depth, or the end field. Where it is refused, there is the
// number of the question answered no instead.
#[derive(Clone, Copy, PartialEq, Eq, Debug)]
pub enum Field {
    Row(u8),
    End,
}
