//! The buffers that a result fills.
ghost use Rattle.std.specs.Prelude.{◌≡◌, ◌≤◌, length, [], vec_capacity};
ghost use Rattle.scsi_disk.specs.Performed.{good as good_of, check_condition as check_condition_of, sense_data as sense_data_of};

use crate::bytes::Bytes;
use crate::out_of_memory::OutOfMemory;
use crate::scsi_result::{CHECK_CONDITION, GOOD, ScsiResult};
use crate::sense::AdditionalSense;
use std::alloc::Global;

// The most bytes that a result's data has.
const PAYLOAD_LEN: usize = Bytes::MAX_LEN;
// The length of fixed format sense data.
const SENSE_LEN: usize = 18;

/// Two empty buffers, for the data and the sense of one result.
#[derive(Drop)]
pub struct Buffers {
    payload: Vec<u8>,
    sense: Vec<u8>,
    ghost payload_empty: { payload.items ≡ [] },
    ghost payload_room: { 4096 ≤ vec_capacity payload },
    ghost sense_empty: { sense.items ≡ [] },
    ghost sense_room: { 18 ≤ vec_capacity sense },
}

impl Buffers {
    /// New buffers, or OutOfMemory.
    pub fn new(alloc: Global) -> Result<Buffers, OutOfMemory> {
        let payload = Vec::with_capacity(alloc, PAYLOAD_LEN)?;
        let sense = Vec::with_capacity(alloc, SENSE_LEN)?;
        Ok(Buffers { payload, sense })
    }

    /// GOOD, with this data.
    pub fn good(self, content: &[u8]) -> ScsiResult
        requires { length content.now ≤ 4096 }
        ensures { result ≡ good_of content.now }
    {
        let Buffers { mut payload, sense } = self;
        payload.extend_from_slice(content).unwrap();
        ScsiResult {
            status: GOOD,
            payload: Bytes::new(payload),
            sense: Bytes::new(sense),
        }
    }

    /// CHECK CONDITION for this cause.
    pub fn check_condition(self, cause: AdditionalSense) -> ScsiResult
        ensures { result ≡ check_condition_of cause }
    {
        let Buffers { payload, mut sense } = self;
        sense.extend_from_slice(&sense_data(cause)).unwrap();
        ScsiResult {
            status: CHECK_CONDITION,
            payload: Bytes::new(payload),
            sense: Bytes::new(sense),
        }
    }
}

// Fixed format sense data (SPC-4) of a current error with sense key ILLEGAL REQUEST.
fn sense_data(cause: AdditionalSense) -> [u8; SENSE_LEN]
    ensures { result ≡ sense_data_of cause }
{
    let mut sense = [0; SENSE_LEN];
    // RESPONSE CODE: current error, fixed format.
    sense[0] = 0x70;
    // SENSE KEY: ILLEGAL REQUEST.
    sense[2] = 0x05;
    // ADDITIONAL SENSE LENGTH: the bytes after the eighth.
    sense[7] = 0x0a;
    sense[12] = cause as u8;
    sense
}
