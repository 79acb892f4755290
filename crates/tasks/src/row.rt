// What a task asks of the processor, in ticks, with no bounds yet.
use crate::kind::Kind;

#[derive(Clone, Copy, PartialEq, Eq, Debug)]
pub struct Row {
    pub kind: Kind,
    // the longest time of a job without a fault
    pub normal: u32,
    // the longest time of a job with fault recovery
    pub abnormal: u32,
    // the longest stretch in which a job may not be interrupted
    pub section: u32,
    pub deadline: u32,
    pub period: u32,
}
