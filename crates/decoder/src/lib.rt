// The stream: bytes are fed in pieces, and the frames among them come out as replies. Ports
// src/decoder.rs at its default capacity of 512 bytes; document 01, "The stream". The state goes in by
// value and comes back beside what the call answers. The line figures are added, and a feed for the
// gateway that never clears (document 02, W12).
#![tactic(auto)]

ghost use Rattle.std.specs.Prelude.{◌≡◌, length};
ghost use Rattle.stream.specs.Searching.{search};
ghost use Rattle.buffer.specs.Buffer.{fresh, moved, emptied, fitting, copied};
ghost use Rattle.decoder.specs.Judge.{decode_judge};
ghost use Rattle.decoder.specs.State.{fields_buffer, buffer_of, Sound, BufferIs, FeedIs, GatewayFeedIs, NextIs, held_of, figures_of, search_of};

use refusals::{DecodeError, FeedError};
use reply::CommandReply;

// The unread bytes are buf[rpos..wpos]; the figures count since `new`. `drained`: the last `next` gave
// nothing, and no nonempty piece was fed since; or the decoder is fresh. The fields are public, and hold no invariant, because
// document 01 takes a state that no calls make as a fresh one; `Settled` is a state that calls can make.
#[derive(Clone, Copy)]
pub struct Decoder {
    pub buf: [u8; format::CAPACITY],
    pub rpos: usize,
    pub wpos: usize,
    pub fed: u64,
    pub handed: u64,
    pub passed: u64,
    pub cleared: u64,
    pub drained: bool,
}

// The answer of `feed`: the bytes taken. It and the two after it are no generic one, because README.md names their fields.
#[derive(Clone, Copy)]
pub struct Fed {
    pub count: usize,
    pub decoder: Decoder,
}

// The answer of `gateway_feed`: how many bytes of the piece it took, or why it took none.
#[derive(Clone, Copy)]
pub struct GatewayFed {
    pub answer: Result<usize, FeedError>,
    pub decoder: Decoder,
}

// The answer of `next`: how many bytes the frame has that it gives, and the reply.
#[derive(Clone, Copy)]
pub struct Next {
    pub given: Option<(usize, CommandReply)>,
    pub decoder: Decoder,
}

// The line figures.
#[derive(Clone, Copy)]
pub struct Figures {
    pub fed: u64,
    pub handed: u64,
    pub passed: u64,
    pub cleared: u64,
    pub held: u64,
}

// A decoder in a state that calls can make.
#[derive(Clone, Copy)]
struct Settled {
    decoder: Decoder,
    ghost sound: { Sound decoder },
}

// Where a search of the unread bytes ends: the bytes moved over, and the count of a good frame behind them.
// A byte that starts no frame is not given to `judge`, so that noise costs a comparison.
fn seek(unread: &[u8]) -> (usize, Option<usize>)
    ensures { search_of unread.now result ≡ search decode_judge unread.now }
{
    for (over, byte) in unread.iter().enumerate() {
        if *byte == format::FRAME_START_SHORT {
            match judge::judge(&unread[over..]) {
                Ok(count) => return (over, Some(count)),
                Err(DecodeError::IncompleteData) => return (over, None),
                Err(_) => {}
            }
        }
    }
    (unread.len(), None)
}

impl Settled {
    // Where the piece is longer than the free tail, the unread bytes move to the front.
    #[tactic(auto, using(crate::proofs::States::moved_fields), unfolding(buffer::specs::Buffer::moved))]
    fn moved(mut self, n: usize) -> Settled
        ensures { fields_buffer result.decoder ≡ moved n (fields_buffer self.decoder) }
    {
        let decoder = &mut self.decoder;
        if format::CAPACITY - decoder.wpos < n {
            decoder.buf.copy_within(decoder.rpos..decoder.wpos, 0);
            decoder.wpos -= decoder.rpos;
            decoder.rpos = 0;
        }
        self
    }

    // As in the Rust, also where an empty piece is fed and the tail is full. The mark stays: only `next` sets it.
    #[tactic(auto, unfolding(buffer::specs::Buffer::emptied, buffer::specs::Buffer::raised))]
    fn emptied(mut self) -> Settled
        ensures { fields_buffer result.decoder ≡ emptied (fields_buffer self.decoder) }
    {
        if self.decoder.wpos == format::CAPACITY {
            let unread = self.unread().len();
            let decoder = &mut self.decoder;
            decoder.cleared = decoder.cleared.saturating_add(unread as u64);
            decoder.rpos = 0;
            decoder.wpos = 0;
        }
        self
    }

    // Copies as much of the piece as fits. An empty piece leaves the mark as it is.
    #[tactic(auto, using(crate::proofs::States::copied_unread), unfolding(buffer::specs::Buffer::copied, buffer::specs::Buffer::fitting, buffer::specs::Buffer::raised))]
    fn copied(mut self, piece: &[u8]) -> (usize, Settled)
        ensures count { result.0 ≡ fitting (length piece.now) (fields_buffer self.decoder) }
        ensures buffer { fields_buffer result.1.decoder ≡ copied piece.now result.0 (fields_buffer self.decoder) }
    {
        let decoder = &mut self.decoder;
        let wpos = decoder.wpos;
        let count = (format::CAPACITY - wpos).min(piece.len());
        decoder.buf[wpos..wpos + count].copy_from_slice(&piece[..count]);
        decoder.wpos += count;
        decoder.fed = decoder.fed.saturating_add(count as u64);
        decoder.drained &= piece.is_empty();
        (count, self)
    }

    fn unread(&self) -> &[u8]
        ensures { result.now ≡ (fields_buffer self.now.decoder).unread }
    {
        &self.decoder.buf[self.decoder.rpos..self.decoder.wpos]
    }
}

impl Decoder {
    // A fresh decoder: nothing is unread, and every figure is 0.
    #[tactic(auto, unfolding(crate::specs::State::buffer_of))]
    pub fn new() -> Decoder
        ensures { BufferIs fresh result }
    {
        Decoder {
            buf: [0; format::CAPACITY],
            rpos: 0,
            wpos: 0,
            fed: 0,
            handed: 0,
            passed: 0,
            cleared: 0,
            drained: true,
        }
    }

    // A state that no calls can make is taken as a fresh one.
    #[tactic(auto, using(crate::proofs::States::held_fields, crate::proofs::States::past_end_fresh, crate::proofs::States::past_write_fresh, crate::proofs::States::many_unread_fresh))]
    fn settled(self) -> Settled
        ensures buffer { fields_buffer result.decoder ≡ buffer_of self }
        ensures value { Sound self → result.decoder ≡ self }
    {
        if format::CAPACITY < self.wpos
            || self.wpos < self.rpos
            || (self.drained && format::DRAINED_MOST < self.wpos - self.rpos)
        {
            return Settled {
                decoder: Decoder::new(),
            };
        }
        Settled { decoder: self }
    }

    // The Rust's `feed`. Takes as much of the piece as fits. What is not taken is to be fed again. Clears what
    // is unread when 512 bytes lie unread, and on an empty piece when the tail is full: never feed an empty
    // piece. The figure `cleared` counts what was lost so. `gateway_feed` loses nothing.
    #[tactic(auto, using(crate::proofs::States::holds), unfolding(buffer::specs::Buffer::feed_count, buffer::specs::Buffer::fed_buffer))]
    pub fn feed(self, piece: &[u8]) -> Fed
        ensures { FeedIs self piece.now result }
    {
        let (count, fed) = self.settled().moved(piece.len()).emptied().copied(piece);
        Fed {
            count,
            decoder: fed.decoder,
        }
    }

    // The gateway's feed, which never clears. Takes as much of the piece as fits. What is not taken is to be fed
    // again. An empty piece changes nothing. If the decoder is not drained, a nonempty piece is refused and
    // nothing changes: call `next` until it gives nothing, then feed again. A drained decoder has at most 109
    // bytes unread, so there is room for a byte or more once they are at the front.
    #[tactic(auto, using(crate::proofs::States::holds), unfolding(buffer::specs::Buffer::gateway_answer, buffer::specs::Buffer::gateway_buffer))]
    pub fn gateway_feed(self, piece: &[u8]) -> GatewayFed
        ensures { GatewayFeedIs self piece.now result }
    {
        let settled = self.settled();
        if piece.is_empty() {
            return GatewayFed {
                answer: Ok(0),
                decoder: settled.decoder,
            };
        }
        if !settled.decoder.drained {
            return GatewayFed {
                answer: Err(FeedError::NotDrained),
                decoder: settled.decoder,
            };
        }
        let (count, after) = settled.moved(piece.len()).copied(piece);
        GatewayFed {
            answer: Ok(count),
            decoder: after.decoder,
        }
    }

    // The next reply among the unread bytes, if a whole frame is there.
    #[tactic(auto, using(crate::proofs::Seeking::over_within, crate::proofs::Seeking::over_room, crate::proofs::Seeking::found_room))]
    pub fn next(self) -> Next
        ensures { NextIs self result }
    {
        let settled = self.settled();
        let mut decoder = settled.decoder;
        let unread = settled.unread();
        let (over, found) = seek(unread);
        decoder.passed = decoder.passed.saturating_add(over as u64);
        decoder.rpos += over;
        match found {
            Some(count) => {
                let reply = reply::reply_in(&unread[over..]);
                decoder.handed = decoder.handed.saturating_add(count as u64);
                decoder.rpos += count;
                decoder.drained = false;
                Next {
                    given: Some((count, reply)),
                    decoder,
                }
            }
            None => {
                decoder.drained = true;
                Next {
                    given: None,
                    decoder,
                }
            }
        }
    }

    // The bytes unread now.
    pub fn held(self) -> u64
        ensures { result ≡ held_of (buffer_of self) }
    {
        self.settled().unread().len() as u64
    }

    // The line figures as they stand now.
    pub fn figures(self) -> Figures
        ensures { result ≡ figures_of (buffer_of self) }
    {
        let settled = self.settled();
        let decoder = settled.decoder;
        Figures {
            fed: decoder.fed,
            handed: decoder.handed,
            passed: decoder.passed,
            cleared: decoder.cleared,
            held: settled.unread().len() as u64,
        }
    }
}
