// The verdict of the third call. Its definition is in specs/Verdict and specs/Call, the code in subsumes.

// Yes or no, with the length of the evidence.
#[derive(Clone, Copy, PartialEq, Eq, Debug)]
pub enum Verdict {
    Yes(usize),
    No(usize),
}
