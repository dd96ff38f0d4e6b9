// What a text comes to, by definitions and laws alone; crate reader has the code.
#![tactic(auto)]

use config::Config;

// What a text gives back. With a number other than 0 the record is the default one.
#[derive(Clone, Copy)]
pub struct Answer {
    pub number: usize,
    pub key: usize,
    pub count: usize,
    pub config: Config,
}
