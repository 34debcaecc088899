//! What the replies of a run tell: how many refuse, and the bytes that were read.

ghost use Rattle.std.specs.Prelude.{◌≡◌, ◌*◌, ◌^◌, ◌≤◌, length, filter, sum, sum_by, All};
ghost use Rattle.pool_law.specs.Summary.{all_bytes, replies_given, bytes_in, is_refusal};
ghost use Rattle.run_report.specs.ReplyTotals.{read_by, read_in, refusals_by, refusals_in, total_by, total_in};

use pool_law::{Answered, LaneLog, Reply, Run};

/// How many replies refuse, how many bytes the others tell, and the sum of their values.
#[derive(Clone, Copy, Drop)]
pub struct ReplyTotals {
    pub refused: u64,
    pub read: u128,
    pub total: u128,
}

/// What the replies of a run tell. No sum overflows where the lanes and the replies of each are as
/// few as in any legal run.
pub fn told_of(run: &Run) -> ReplyTotals
    requires lanes { length run.now.logs ≤ 16 }
    requires few { All (λ log. length log.replies ≤ 65536) run.now.logs }
    ensures refused { result.refused ≡ length (filter is_refusal (replies_given run.now)) }
    ensures read { result.read ≡ length (all_bytes run.now) }
    ensures total { result.total ≡ sum (all_bytes run.now) }
{
    told_over(run.logs.items())
}

// What these logs tell.
fn told_over(logs: &[LaneLog]) -> ReplyTotals
    requires lanes { length logs.now ≤ 16 }
    requires few { All (λ log. length log.replies ≤ 65536) logs.now }
    ensures refused { result.refused ≡ sum_by refusals_by logs.now }
    ensures read { result.read ≡ sum_by read_by logs.now }
    ensures total { result.total ≡ sum_by total_by logs.now }
{
    let mut refused = 0;
    let mut read = 0;
    let mut total = 0;
    for log in logs {
        let told = told_by(log.replies.items());
        refused += told.refused;
        read += told.read;
        total += told.total;
    }
    ReplyTotals {
        refused,
        read,
        total,
    }
}

// What the replies of a lane tell.
fn told_by(answers: &[Answered]) -> ReplyTotals
    requires few { length answers.now ≤ 65536 }
    ensures refused { result.refused ≡ sum_by refusals_in answers.now }
    ensures read { result.read ≡ sum_by read_in answers.now }
    ensures total { result.total ≡ sum_by total_in answers.now }
    ensures refused_most { result.refused ≤ 2 ^ 16 }
    ensures read_most { result.read ≤ 2 ^ 80 }
    ensures total_most { result.total ≤ 2 ^ 88 }
{
    let mut refused = 0;
    let mut read = 0;
    let mut total = 0;
    for answered in answers {
        refused += u64::from(is_refusal(&answered.reply));
        let bytes = bytes_in(&answered.reply);
        read += bytes.len() as u128;
        total += sum_of(bytes);
    }
    ReplyTotals {
        refused,
        read,
        total,
    }
}

// Whether a reply is neither `ok` in any form nor `kept` nor `freed`.
fn is_refusal(reply: &Reply) -> bool
    ensures { result ≡ is_refusal reply.now }
{
    match reply {
        Reply::Ok | Reply::OkPlace { .. } | Reply::OkBytes(_) | Reply::OkNumber(_) => false,
        Reply::Kept | Reply::Freed => false,
        _ => true,
    }
}

// The bytes that a reply tells.
fn bytes_in(reply: &Reply) -> &[u8]
    ensures { result.now ≡ bytes_in reply.now }
{
    match reply {
        Reply::OkBytes(bytes) => bytes.items(),
        _ => &[],
    }
}

// The sum of their values.
fn sum_of(bytes: &[u8]) -> u128
    ensures exact { result ≡ sum bytes.now }
    ensures most { result ≤ 255 * length bytes.now }
{
    let mut total = 0;
    for byte in bytes {
        total += u128::from(*byte);
    }
    total
}
