//! A client of either family that is polled over a link in memory.

use dhcp_clock::{MemLink, Packet, PacketKind, WordList};
use dhcp_wire::{Bytes, DhcpError, ErrorKind, FixedText};
use std::alloc::Global;

/// A client, as it is measured. Moments are in milliseconds.
pub trait Client: Drop {
    /// The first word that it draws; each later one is 0.
    const FIRST_WORD: u32;

    /// A client that holds no lease and was not polled yet, which draws from these words.
    fn begin(alloc: Global, words: &mut WordList) -> Result<Self, DhcpError>;

    /// Gives it the longest lease, of 4,294,967,295 seconds, at the moment 0.
    fn hold_long_lease(&mut self, alloc: Global) -> Result<(), DhcpError>;

    /// The packet of these bytes, as the client receives it before it has an address.
    fn packet(bytes: &[u8]) -> Answer;

    /// What a server answers in a life, with these bytes of an offer and of the answer with the
    /// lease.
    fn answers<'a>(offer: &'a [u8], lease: &'a [u8]) -> Answers<'a>;

    /// One poll at a moment.
    fn poll(&mut self, now: u32, words: &mut WordList, link: &mut MemLink) -> Result<(), DhcpError>;

    /// T1 of the lease that it holds, in seconds; none if it holds none.
    fn renewal_time_sec(&self) -> Option<u32>;

    /// Releases the lease that it holds, at a moment; whether it held one.
    fn release(&mut self, now: u32, link: &mut MemLink) -> Result<bool, DhcpError>;
}

/// A packet that a server sends.
#[derive(Clone, Copy)]
pub struct Answer<'a> {
    /// Whether the bytes are a frame or a payload.
    pub kind: PacketKind,
    /// The bytes of the frame or of the payload.
    pub bytes: &'a [u8],
}

/// What is measured of the polls of a client.
#[derive(Clone, Copy)]
pub(crate) enum PollTask<'a> {
    /// It has a lease, and is polled before T1, a millisecond apart.
    Idle,
    /// Its first message is open, and each poll has the packet of these bytes.
    Foreign(&'a [u8]),
}

/// What a server answers in a client's life.
#[derive(Clone, Copy)]
pub struct Answers<'a> {
    /// The answer with an offer: an Offer, or an Advertise.
    pub offer: Answer<'a>,
    /// The answer with the lease: an Ack, or a Reply.
    pub lease: Answer<'a>,
    /// The answer that renews the lease.
    pub renewal: Answer<'a>,
}

// A client with its words and its link.
#[derive(Drop)]
struct Exchange<C> {
    client: C,
    words: WordList,
    link: MemLink,
}

impl<C: Client> Exchange<C> {
    // The exchange of a client that was not polled yet.
    fn begin(alloc: Global) -> Result<Self, DhcpError> {
        let mut words = WordList::new(vec![in alloc; C::FIRST_WORD]?);
        Ok(Exchange {
            client: C::begin(alloc, &mut words)?,
            words,
            link: MemLink::new(alloc),
        })
    }

    // A poll, with a packet or without.
    fn poll(&mut self, now: u32, packet: Option<Packet>) -> Result<(), DhcpError> {
        self.link.load(packet);
        let polled = self.client.poll(now, &mut self.words, &mut self.link);
        drop(self.link.take_handed());
        polled
    }

    // A poll with this answer.
    fn hear(&mut self, alloc: Global, now: u32, answer: Answer) -> Result<(), DhcpError> {
        let bytes = Bytes::from_slice(alloc, answer.bytes)?;
        let kind = answer.kind;
        self.poll(now, Some(Packet { kind, bytes }))
    }

    // Polls without a packet, so many, a millisecond apart, with a lease.
    fn idle(&mut self, alloc: Global, times: u32) -> Result<u64, DhcpError> {
        self.client.hold_long_lease(alloc)?;
        for now in 0..times {
            self.poll(now, None)?;
        }
        Ok(u64::from(times))
    }

    // Polls with this answer, so many.
    fn hear_often(&mut self, alloc: Global, times: u32, answer: Answer) -> Result<u64, DhcpError> {
        for _ in 0..times {
            self.hear(alloc, 0, answer)?;
        }
        Ok(u64::from(times))
    }

    // The life of a client that was not polled yet; whether it ended by a release.
    fn live(&mut self, alloc: Global, answers: Answers) -> Result<bool, DhcpError> {
        self.poll(0, None)?;
        self.hear(alloc, 1, answers.offer)?;
        self.hear(alloc, 2, answers.lease)?;
        let Some(renewal_time_sec) = self.client.renewal_time_sec() else {
            return Err(DhcpError::new_fixed(ErrorKind::NoLease, FixedText::NoLease));
        };
        let renewal = renewal_time_sec.saturating_mul(1000).saturating_add(2);
        self.poll(renewal, None)?;
        self.hear(alloc, renewal, answers.renewal)?;
        self.client.release(renewal, &mut self.link)
    }
}

/// Polls a client so many times.
pub(crate) fn polls<C: Client>(
    alloc: Global,
    task: PollTask,
    times: u32,
) -> Result<u64, DhcpError> {
    let mut exchange: Exchange<C> = Exchange::begin(alloc)?;
    match task {
        PollTask::Idle => exchange.idle(alloc, times),
        PollTask::Foreign(bytes) => exchange.hear_often(alloc, times, C::packet(bytes)),
    }
}

/// Whole lives, so many: an offer, a request, a lease, a renewal at T1 and the release.
pub(crate) fn lives<C: Client>(
    alloc: Global,
    times: u32,
    answers: Answers,
) -> Result<u64, DhcpError> {
    let mut count = 0u64;
    for _ in 0..times {
        count = count.saturating_add(u64::from(life::<C>(alloc, answers)?));
    }
    Ok(count)
}

// A whole life; whether it ended by a release.
fn life<C: Client>(alloc: Global, answers: Answers) -> Result<bool, DhcpError> {
    let mut exchange: Exchange<C> = Exchange::begin(alloc)?;
    exchange.live(alloc, answers)
}
