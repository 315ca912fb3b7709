//! The channels of a program's rows.

ghost use Rattle.std.specs.Prelude.{◌≡◌, ◌==◌, ◌<◌, ◌≤◌, ◌^◌, length, IfOk};
ghost use Rattle.std.specs.List.{list_any};
ghost use Rattle.cl_mean.specs.Journal.{one_pair};
ghost use Rattle.hal_route.specs.Hal.{callers, channels_of};

use cl_base::name::NoMemory;
use cl_mean::checked::GedlRow;
use sqlite_items::at;
use std::alloc::Global;

/// A row as the router sees it: its levels, the number of their pair, and the bytes of its payloads.
#[derive(Clone, Copy, PartialEq, Eq)]
pub struct Channel {
    pub from: u32,
    pub to: u32,
    pub mux: u32,
    pub request: u32,
    pub reply: u32,
}

/// 0 for two rows of one pair of levels, and else 1.
fn one_pair(row: &GedlRow, next: &GedlRow) -> u32
    ensures { result ≡ one_pair row.now next.now }
{
    if row.from == next.from && row.to == next.to {
        0
    } else {
        1
    }
}

pub(crate) fn channels_of(alloc: Global, rows: &[GedlRow]) -> Result<Vec<Channel>, NoMemory>
    requires { length rows.now < 2 ^ 31 }
    ensures channels { IfOk result (λ channels. channels.items ≡ channels_of rows.now) }
    ensures count { IfOk result (λ channels. length channels.items ≡ length rows.now) }
{
    let mut channels = Vec::with_capacity(alloc, rows.len())?;
    let mut mux = 1;
    for (k, row) in rows.iter().enumerate() {
        channels.push(Channel {
            from: row.from,
            to: row.to,
            mux,
            request: row.request,
            reply: row.reply,
        })?;
        if let Some(next) = at(rows, k + 1) {
            mux += one_pair(row, next);
        }
    }
    Ok(channels)
}

fn has_caller(channels: &[Channel], level: u32) -> bool
    ensures { result ≡ list_any (λ d. d.from == level) channels.now }
{
    channels.iter().any(|channel| channel.from == level)
}

/// How many levels are callers.
#[tactic(auto, using(crate::proofs::Channels::callers_le))]
pub(crate) fn callers(channels: &[Channel]) -> usize
    ensures count { result ≡ callers channels.now }
    ensures within { result ≤ length channels.now }
{
    let mut count = 0;
    let mut left = channels;
    while let [channel, rest @ ..] = left {
        if !has_caller(rest, channel.from) {
            count += 1;
        }
        left = rest;
    }
    count
}
