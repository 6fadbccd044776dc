// Why a line has no answer.
use std::io;
use typed::text::Stuck;

#[derive(Debug, Drop)]
pub enum Failure {
    Stuck(Stuck),
    Output(io::Error),
}

impl From<Stuck> for Failure {
    fn from(stuck: Stuck) -> Failure {
        Failure::Stuck(stuck)
    }
}

impl From<io::Error> for Failure {
    fn from(why: io::Error) -> Failure {
        Failure::Output(why)
    }
}
