/// Which of the two languages a text is of. They differ in the labels of blank nodes alone: in
/// N-Triples a colon counts there as a letter.
#[derive(Clone, Copy, Debug, PartialEq, Eq)]
pub enum Dialect {
    Turtle,
    NTriples,
}
