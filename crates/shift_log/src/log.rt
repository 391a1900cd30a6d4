// What is kept from read to read.
use crate::InForce;
use lines::carried::Carried;

// What is carried of a line that has not ended, and what is in force. What it does stands in `play`.
#[derive(Drop)]
pub struct Log<'a> {
    pub carried: Carried<'a>,
    pub in_force: InForce<'a>,
}
