//! From the bytes of a source to the replies to its lines.
ghost use Rattle.std.specs.Prelude.{◌≡◌, ℕ, ◌+◌, ◌<◌, ◌≤◌, ◌^◌, length, take, IfOk, OnOk, OnErr, IsErrOf, position};
ghost use Rattle.std.specs.Io.KnownBytes.{Consumes, Keeps, IsAtEnd};
ghost use Rattle.apply_io.specs.Causes.{HasCause, Rose};
ghost use Rattle.apply_io.specs.Reads.{EndsInOneRead};
ghost use Rattle.line_stream.specs.Lines.{is_line_feed, shown, request_lines, ended_lines};
ghost use Rattle.apply_grammar.specs.Frames.{line_limit};
ghost use Rattle.line_stream.specs.Buffers.{nothing_kept};
ghost use Rattle.line_stream.specs.Costs.{Rises};
ghost use Rattle.line_stream.specs.Answers.{Writes, WritesPart, Responds, RespondsInPart};
ghost use Rattle.line_stream.specs.Streams.{Answers, BreaksOff, Advances, Overruns, Breaks};
ghost use Rattle.apply_replies.specs.Costs.{BoundsLineOf};
ghost use Rattle.apply_replies.specs.Replies.{IsReplyOf};

use apply_io::{Failed, Sink, Source};
use apply_meaning::Steps;
use apply_replies::Replies;
use line_stream::{LineBuffer, write_output};
use par_stages::Gate;
use std::sync::ledger::Ledger;
use std::thread::Threads;

/// Why the stream was not read to its end.
#[derive(Clone, Copy)]
pub(crate) enum Stop {
    /// A read failed.
    Read,
    /// A write failed.
    Write,
    /// There were more bytes than the limit.
    Limit,
}

/// The place of the first LF.
fn line_end(bytes: &[u8]) -> Option<usize>
    ensures { result ≡ position is_line_feed bytes.now }
{
    bytes.iter().position(|byte| *byte == b'\n')
}

/// Writes the reply to a line, and nothing for an empty one.
pub(crate) fn answer_line<R: Threads + Sync, G: Gate, L: Ledger, K: Sink>(
    replies: &Replies<'_, R, G>,
    steps: &mut Steps<L>,
    line: &[u8],
    output: &mut K,
) -> Result<(), Failed>
    ensures cause { HasCause (K.fault_count output.old) (K.fault_count output.new) result }
    ensures ok { OnOk result (Writes (IsReplyOf replies.now.store.now) (shown line.now) (K.held output.old) (K.held output.new)) }
    ensures err { OnErr result (WritesPart (IsReplyOf replies.now.store.now) (shown line.now) (K.held output.old) (K.held output.new)) }
    ensures counted { Rises (BoundsLineOf replies.now.is_optimised replies.now.store.now) (shown line.now) steps.old steps.new }
{
    if line.is_empty() {
        return Ok(());
    }
    let response = replies.reply(steps, line);
    write_output(output, &response)
}

/// Takes bytes, and writes the replies to the lines that they end.
fn take_bytes<R: Threads + Sync, G: Gate, L: Ledger, K: Sink>(
    replies: &Replies<'_, R, G>,
    steps: &mut Steps<L>,
    bytes: &[u8],
    line: &mut LineBuffer,
    output: &mut K,
) -> Result<(), Failed>
    requires limit { line.old.limit ≡ line_limit }
    ensures limit { line.new.limit ≡ line_limit }
    ensures cause { HasCause (K.fault_count output.old) (K.fault_count output.new) result }
    ensures ok { OnOk result (Answers (IsReplyOf replies.now.store.now) (BoundsLineOf replies.now.is_optimised replies.now.store.now)
        (K.held output.old) (K.held output.new) steps.old steps.new line.old line.new bytes.now) }
    ensures err { OnErr result (BreaksOff (IsReplyOf replies.now.store.now) (BoundsLineOf replies.now.is_optimised replies.now.store.now)
        (K.held output.old) (K.held output.new) steps.old steps.new line.old bytes.now) }
{
    let mut rest = bytes;
    while let Some(end) = line_end(rest) {
        line.push(&rest[..end]);
        answer_line(replies, steps, line.ended(), output)?;
        line.clear();
        rest = &rest[end + 1..];
    }
    line.push(rest);
    Ok(())
}

/// Reads the next bytes, by one read: as many as the buffer has room for, or, where fewer are left of the limit, one more than those.
fn read_piece<S: Source>(input: &mut S, left: u64, buffer: &mut [u8]) -> Result<usize, Failed>
    requires room { 0 < length buffer.old }
    ensures count { IfOk result (λ n. (n ≤ length buffer.new) × (n ≤ left + 1)) }
    ensures bytes { IfOk result (λ n. Consumes (S.left input.old) (S.left input.new) (take n buffer.new)) }
    ensures end { IfOk result (λ n. n ≡ 0 → IsAtEnd (S.left input.new)) }
    ensures once { S.reads_once input.old input.new }
    ensures cause { HasCause (S.fault_count input.old) (S.fault_count input.new) result }
    ensures kept { OnErr result (Keeps (S.left input.old) (S.left input.new)) }
{
    let room = if left < buffer.len() as u64 {
        left as usize + 1
    } else {
        buffer.len()
    };
    let room = room.min(buffer.len());
    input.read(&mut buffer[..room])
}

/// Reads a piece and answers the lines that it ends. At `Ok(0)` nothing is left.
fn answer_piece<R: Threads + Sync, G: Gate, L: Ledger, S: Source, K: Sink>(
    replies: &Replies<'_, R, G>,
    steps: &mut Steps<L>,
    left: u64,
    buffer: &mut [u8],
    line: &mut LineBuffer,
    input: &mut S,
    output: &mut K,
) -> Result<u64, Stop>
    requires room { 0 < length buffer.old }
    requires limit { line.old.limit ≡ line_limit }
    ensures room { length buffer.new ≡ length buffer.old }
    ensures limit { line.new.limit ≡ line_limit }
    ensures later_in { S.fault_count input.old ≤ S.fault_count input.new }
    ensures later_out { K.fault_count output.old ≤ K.fault_count output.new }
    ensures count { IfOk result (λ n. n ≤ left) }
    ensures ok { IfOk result (λ n. Advances (IsReplyOf replies.now.store.now) (BoundsLineOf replies.now.is_optimised replies.now.store.now)
        (S.left input.old) (S.left input.new) (K.held output.old) (K.held output.new) steps.old steps.new line.old line.new n) }
    ensures end { IfOk result (λ n. n ≡ 0 → IsAtEnd (S.left input.new)) }
    ensures once { S.reads_once input.old input.new }
    ensures read_cause { IsErrOf result Stop.Read → Rose (S.fault_count input.old) (S.fault_count input.new) }
    ensures read { IsErrOf result Stop.Read → Keeps (S.left input.old) (S.left input.new)
        × (output.new ≡ output.old) × (line.new ≡ line.old) × (steps.new ≡ steps.old) }
    ensures write_cause { IsErrOf result Stop.Write → Rose (K.fault_count output.old) (K.fault_count output.new) }
    ensures write { IsErrOf result Stop.Write → Breaks (IsReplyOf replies.now.store.now) (BoundsLineOf replies.now.is_optimised replies.now.store.now)
        (EndsInOneRead S.left S.reads_once input.old input.new) (length buffer.old) left (S.left input.old) (S.left input.new) (K.held output.old) (K.held output.new) steps.old steps.new line.old }
    ensures limit_passed { IsErrOf result Stop.Limit → Overruns (IsReplyOf replies.now.store.now) (BoundsLineOf replies.now.is_optimised replies.now.store.now)
        (S.left input.old) (S.left input.new) (K.held output.old) (K.held output.new) steps.old steps.new line.old line.new left }
{
    let Ok(count) = read_piece(input, left, buffer) else {
        return Err(Stop::Read);
    };
    let allowed = (count as u64).min(left);
    let Ok(()) = take_bytes(replies, steps, &buffer[..allowed as usize], line, output) else {
        return Err(Stop::Write);
    };
    if allowed < count as u64 {
        return Err(Stop::Limit);
    }
    Ok(allowed)
}

/// Reads the source to its end, at most `limit` bytes, and answers its lines in order, each as soon as it is read.
pub(crate) fn answer_stream<R: Threads + Sync, G: Gate, L: Ledger, S: Source, K: Sink>(
    replies: &Replies<'_, R, G>,
    steps: &mut Steps<L>,
    limit: u64,
    buffer: &mut [u8],
    line: &mut LineBuffer,
    input: &mut S,
    output: &mut K,
) -> Result<(), Stop>
    requires room { 0 < length buffer.old }
    requires limit { line.old.limit ≡ line_limit }
    requires empty { line.old ≡ nothing_kept line.old.limit }
    ensures later_in { S.fault_count input.old ≤ S.fault_count input.new }
    ensures later_out { K.fault_count output.old ≤ K.fault_count output.new }
    // Nothing is left, and one response for each line was written, in order. In each case the counter of steps rose by no
    // more than what the lines cost.
    ensures end { OnOk result (IsAtEnd (S.left input.new)) }
    ensures ok { OnOk result (Responds (IsReplyOf replies.now.store.now) (BoundsLineOf replies.now.is_optimised replies.now.store.now) request_lines
        (λ bytes. length bytes ≤ limit) (S.left input.old) (S.left input.new) (K.held output.old) (K.held output.new) steps.old steps.new) }
    // Where a read failed, the lines that an LF ended within the bytes taken were answered.
    ensures read_cause { IsErrOf result Stop.Read → Rose (S.fault_count input.old) (S.fault_count input.new) }
    ensures read { IsErrOf result Stop.Read → Responds (IsReplyOf replies.now.store.now) (BoundsLineOf replies.now.is_optimised replies.now.store.now) ended_lines
        (λ bytes. length bytes ≤ limit) (S.left input.old) (S.left input.new) (K.held output.old) (K.held output.new) steps.old steps.new }
    // Where one byte more than the limit came, those within the limit.
    ensures limit_passed { IsErrOf result Stop.Limit → Responds (IsReplyOf replies.now.store.now) (BoundsLineOf replies.now.is_optimised replies.now.store.now)
        (λ bytes. ended_lines (take limit bytes)) (λ bytes. length bytes ≡ limit + 1)
        (S.left input.old) (S.left input.new) (K.held output.old) (K.held output.new) steps.old steps.new }
    // Where a write failed, the responses to all lines that ended before the last read were written, and a front of responses
    // to all lines: whatever follows the bytes taken, or, in the response to a last line with no LF, at the end of the source.
    ensures write_cause { IsErrOf result Stop.Write → Rose (K.fault_count output.old) (K.fault_count output.new) }
    ensures write { IsErrOf result Stop.Write → RespondsInPart (IsReplyOf replies.now.store.now) (BoundsLineOf replies.now.is_optimised replies.now.store.now)
        (EndsInOneRead S.left S.reads_once input.old input.new) (length buffer.old) limit (S.left input.old) (S.left input.new) (K.held output.old) (K.held output.new) steps.old steps.new }
{
    let mut taken = 0;
    loop {
        match answer_piece(replies, steps, limit - taken, buffer, line, input, output) {
            Ok(0) => break,
            Ok(count) => taken += count,
            Err(stop) => return Err(stop),
        }
    }
    match answer_line(replies, steps, line.whole(), output) {
        Ok(()) => Ok(()),
        Err(Failed) => Err(Stop::Write),
    }
}
