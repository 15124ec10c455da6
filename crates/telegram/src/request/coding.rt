//! The row of a request, and the request in a row.
ghost use Rattle.telegram.specs.Records.{request_record, request_row};
ghost use Rattle.telegram.specs.Frames.{request_even, request_back, request_forth};
ghost use Rattle.std.proofs.Common.{rules};

use crate::bits::bit;
use crate::kind::Kind;
use crate::request::Request;
use crate::row::Row;

/// The kind of requests: 14 bits.
#[derive(Clone, Copy)]
pub struct Requests;

impl Kind for Requests {
    type Record = Request;

    const BITS: usize = 14;

    ghost BITS = { 14 };

    ghost row_of = { request_row };

    ghost record_of = { request_record };

    ghost least = { Prim.search rules };

    ghost most = { Prim.search rules };

    ghost long = { Prim.search rules };

    ghost ends = { Prim.search rules };

    ghost even = { request_even };

    ghost back = { request_back };

    ghost forth = { request_forth };

    fn row(telegram: &Request) -> Row {
        let c = telegram.control;
        let (a, i) = (telegram.address, telegram.information);
        // Bit by bit, so that the order of sending is read off here.
        let f = [
            bit(c, 0),
            bit(a, 4),
            bit(a, 3),
            bit(a, 2),
            bit(a, 1),
            bit(a, 0),
            bit(i, 4),
            bit(i, 3),
            bit(i, 2),
            bit(i, 1),
            bit(i, 0),
        ];
        Row::framed(&f)
    }

    fn record(row: &Row) -> Request {
        Request {
            control: row.field(1, 1),
            address: row.field(2, 5),
            information: row.field(7, 5),
        }
    }
}
