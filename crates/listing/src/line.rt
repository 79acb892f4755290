// One line of a listing: a task at its place of the order, with its response times.
use tasks::kind::Kind;

#[derive(Clone, Copy)]
pub struct Line {
    // counted from 1
    pub place: u8,
    pub number: u8,
    pub kind: Kind,
    // the response time without a fault, and with fault recovery
    pub normal: Option<u32>,
    pub abnormal: Option<u32>,
}
