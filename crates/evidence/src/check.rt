// What the fifth call takes. Its definition is in specs/Check and specs/Call, the code in evidence_check.
#[derive(Clone, Copy, PartialEq, Eq, Debug)]
pub enum Taken {
    Map,
    Refutation,
}
