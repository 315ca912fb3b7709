//! The ways that frames take.

ghost use Rattle.std.specs.Prelude.{◌≡◌, Some};
ghost use Rattle.hal_route.specs.Take.{answer_of, ends, has_mux, length_due, sent_by};

use crate::channel::Channel;
use crate::uplink::Passed;
use rpc_codec::frame::{Header, VALUES};

/// What a frame is: the request of a channel, its reply, or the end of the run.
#[derive(Clone, Copy, PartialEq, Eq)]
pub enum Way {
    Asks(Channel),
    Answers(Channel),
    Stops,
}

impl Way {
    /// The bytes of the payload of a frame of this kind.
    pub(crate) fn length_due(self, header: &Header) -> u32
        ensures { result ≡ length_due header.now (Some self) }
    {
        if header.kind != VALUES {
            return 0;
        }
        match self {
            Way::Asks(channel) => channel.request,
            Way::Answers(channel) => channel.reply,
            Way::Stops => 0,
        }
    }

    /// Is this the end of the run?
    pub(crate) fn ends(self) -> bool
        ensures { result ≡ ends (Some self) }
    {
        matches!(self, Way::Stops)
    }

    pub(crate) fn answer(self) -> Passed
        ensures { result ≡ answer_of self }
    {
        match self {
            Way::Asks(channel) => Passed::To(channel.to),
            Way::Answers(channel) => Passed::To(channel.from),
            Way::Stops => Passed::Stop,
        }
    }
}

/// Are mux and sec this number?
pub(crate) fn has_mux(header: &Header, mux: u32) -> bool
    ensures { result ≡ has_mux header.now mux }
{
    header.mux == mux && header.sec == mux
}

/// The way of a message of this channel's row, if the level may send it.
#[tactic(auto, unfolding(crate::specs::Take::sent_by))]
pub(crate) fn sent_by(from: u32, header: &Header, channel: &Channel) -> Option<Way>
    ensures { result ≡ sent_by from header.now channel.now }
{
    if header.typ % 2 == 1 {
        let asks = from == channel.from && has_mux(header, channel.mux) && header.kind == VALUES;
        return asks.then_some(Way::Asks(*channel));
    }
    let answers = from == channel.to && has_mux(header, channel.mux);
    answers.then_some(Way::Answers(*channel))
}
