//! How a request is made.
ghost use Rattle.telegram.specs.Records.{RequestMade};

use crate::refusal::Refusal;
use crate::request::Request;

impl Request {
    /// The request with these fields, refused by 9 if one of them is out of its range.
    // No `TryFrom`: three numbers are no value of their own.
    pub fn new(control: u16, address: u16, information: u16) -> Result<Request, Refusal>
        ensures { RequestMade control address information result }
    {
        if control < 2 && address < 32 && information < 32 {
            Ok(Request {
                control: control as u8,
                address: address as u8,
                information: information as u8,
            })
        } else {
            Err(Refusal::FieldOutOfRange)
        }
    }
}
