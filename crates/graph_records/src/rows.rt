//! The records of nodes and connections, each one's members in the order in which they are read.

ghost use Rattle.std.specs.Prelude.{◌≡◌};
ghost use Rattle.graph_model.specs.Refusals.{Gives};
ghost use Rattle.graph_records.specs.Entries.{record_of};
ghost use Rattle.graph_records.specs.Rows.{biquad_row, connection_in, delay_row, fir_row, gain_row, input_row, insert_row};
ghost use Rattle.graph_records.specs.Rows.{limiter_row, mixer_row, node_in, output_row, row_named};

use crate::entry::Entry;
use crate::fault::RecordFault;
use graph_model::{Connection, Kind, Member, Node, Refused, Uid};
use std::alloc::Global;

/// The members of an input.
fn read_input(entry: &Entry) -> Result<Kind, RecordFault>
    ensures { result ≡ input_row (record_of entry.now) }
{
    Ok(Kind::Input {
        channels: entry.u32(Member::Channels)?,
    })
}

/// The members of an output.
fn read_output(entry: &Entry) -> Result<Kind, RecordFault>
    ensures { result ≡ output_row (record_of entry.now) }
{
    Ok(Kind::Output {
        channels: entry.u32(Member::Channels)?,
    })
}

/// The members of a gain.
fn read_gain(entry: &Entry) -> Result<Kind, RecordFault>
    ensures { result ≡ gain_row (record_of entry.now) }
{
    Ok(Kind::Gain {
        channels: entry.u32(Member::Channels)?,
        gain: entry.i32(Member::Gain)?,
    })
}

/// The members of a mixer.
fn read_mixer(alloc: Global, entry: &Entry) -> Result<Kind, Refused<RecordFault>>
    ensures { Gives (mixer_row (record_of entry.now)) result }
{
    Ok(Kind::Mixer {
        ins: entry.u32(Member::Ins)?,
        outs: entry.u32(Member::Outs)?,
        gains: entry.i32s(alloc, Member::Gains)?,
    })
}

/// The members of a FIR filter.
fn read_fir(alloc: Global, entry: &Entry) -> Result<Kind, Refused<RecordFault>>
    ensures { Gives (fir_row (record_of entry.now)) result }
{
    Ok(Kind::Fir {
        channels: entry.u32(Member::Channels)?,
        taps: entry.i32s(alloc, Member::Taps)?,
        shift: entry.u32(Member::Shift)?,
        latency: entry.u32(Member::Latency)?,
    })
}

/// The members of a biquad filter.
fn read_biquad(entry: &Entry) -> Result<Kind, RecordFault>
    ensures { result ≡ biquad_row (record_of entry.now) }
{
    Ok(Kind::Biquad {
        channels: entry.u32(Member::Channels)?,
        b0: entry.i32(Member::B0)?,
        b1: entry.i32(Member::B1)?,
        b2: entry.i32(Member::B2)?,
        a1: entry.i32(Member::A1)?,
        a2: entry.i32(Member::A2)?,
        shift: entry.u32(Member::Shift)?,
        bits: entry.u32(Member::Bits)?,
    })
}

/// The members of a limiter.
fn read_limiter(entry: &Entry) -> Result<Kind, RecordFault>
    ensures { result ≡ limiter_row (record_of entry.now) }
{
    Ok(Kind::Limiter {
        channels: entry.u32(Member::Channels)?,
        threshold: entry.u64(Member::Threshold)?,
        lookahead: entry.u32(Member::Lookahead)?,
    })
}

/// The members of a delay.
fn read_delay(entry: &Entry) -> Result<Kind, RecordFault>
    ensures { result ≡ delay_row (record_of entry.now) }
{
    Ok(Kind::Delay {
        channels: entry.u32(Member::Channels)?,
        samples: entry.u32(Member::Samples)?,
    })
}

/// The members of an insert.
fn read_insert(entry: &Entry) -> Result<Kind, RecordFault>
    ensures { result ≡ insert_row (record_of entry.now) }
{
    Ok(Kind::Insert {
        channels: entry.u32(Member::Channels)?,
        samples: entry.u32(Member::Samples)?,
    })
}

/// The members of the kind of that name.
fn read_kind(alloc: Global, entry: &Entry, name: &str) -> Result<Kind, Refused<RecordFault>>
    ensures { Gives (row_named (record_of entry.now) name.now) result }
{
    match name {
        "input" => Ok(read_input(entry)?),
        "output" => Ok(read_output(entry)?),
        "gain" => Ok(read_gain(entry)?),
        "mixer" => read_mixer(alloc, entry),
        "fir" => read_fir(alloc, entry),
        "biquad" => Ok(read_biquad(entry)?),
        "limiter" => Ok(read_limiter(entry)?),
        "delay" => Ok(read_delay(entry)?),
        "insert" => Ok(read_insert(entry)?),
        _ => Err(Refused::Fault(RecordFault::Shape {
            place: entry.place(Member::Kind),
        })),
    }
}

/// The node of a record.
pub(crate) fn read_node(alloc: Global, entry: &Entry) -> Result<Node, Refused<RecordFault>>
    ensures { Gives (node_in (record_of entry.now)) result }
{
    entry.object()?;
    let uid = Uid(entry.u32(Member::Uid)?);
    let name = entry.kind()?;
    let kind = read_kind(alloc, entry, name)?;
    Ok(Node { uid, kind })
}

/// The connection of a record.
pub(crate) fn read_connection(entry: &Entry) -> Result<Connection, RecordFault>
    ensures { result ≡ connection_in (record_of entry.now) }
{
    entry.object()?;
    Ok(Connection {
        src: Uid(entry.u32(Member::SrcFilter)?),
        src_channel: entry.u32(Member::SrcChannel)?,
        dst: Uid(entry.u32(Member::DstFilter)?),
        dst_channel: entry.u32(Member::DstChannel)?,
    })
}
