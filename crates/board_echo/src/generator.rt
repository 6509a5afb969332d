//! The peer of a generated run.
ghost use Rattle.std.specs.Prelude.{◌≡◌, IfOk, IsOk};
ghost use Rattle.board_echo.specs.Generator.{next_state, byte_of, state_behind, bytes_behind, said_length, sayings, echo_script};

use link_script::{Chunk, Connects, Peer, PeerKind};
use link_trait::Addr;
use std::alloc::{AllocError, Global};

/// How many bytes the peer says at once, at most.
const CHUNK: u32 = 1000;

/// A generator of bytes, by its state.
#[derive(Drop)]
struct Generator {
    state: u64,
}

impl Generator {
    /// The next byte.
    fn byte(&mut self) -> u8
        ensures state { self.new.state ≡ next_state self.old.state }
        ensures byte { result ≡ byte_of (next_state self.old.state) }
    {
        self.state = self
            .state
            .wrapping_mul(6_364_136_223_846_793_005)
            .wrapping_add(1_442_695_040_888_963_407);
        (self.state / (1 << 56)) as u8
    }

    /// The next bytes, so many.
    fn bytes(&mut self, alloc: Global, many: u32) -> Result<Vec<u8>, AllocError>
        ensures state { IsOk result → self.new.state ≡ state_behind self.old.state many }
        ensures bytes { IfOk result (λ bytes. bytes.items ≡ bytes_behind self.old.state many) }
    {
        let mut bytes = Vec::with_capacity(alloc, many as usize)?;
        for i in 0..many {
            bytes.push(self.byte())?;
        }
        Ok(bytes)
    }
}

/// What the peer says, in chunks.
#[tactic(auto, using(crate::proofs::Sayings::no_chunk))]
fn sayings(alloc: Global, n: u64) -> Result<Vec<Chunk>, AllocError>
    ensures { IfOk result (λ say. say.items ≡ sayings n) }
{
    let mut generator = Generator { state: n };
    let mut left = said_length(n);
    let mut say = Vec::new(alloc);
    while left > 0 {
        let many = left.min(CHUNK);
        let bytes = generator.bytes(alloc, many)?;
        say.push(Chunk { after: 0, bytes })?;
        left -= many;
    }
    Ok(say)
}

/// How many bytes the peer says.
#[tactic(auto, unfolding(crate::specs::Generator::said_length))]
fn said_length(n: u64) -> u32
    ensures { result ≡ said_length n }
{
    1000 + (n % 9000) as u32
}

/// The peer number `n` of the echo server: a client at 10.0.0.2:40000 that connects to the chip's port 5000 and says
/// 1000 + n mod 9000 bytes of a generator that begins with `n`. It takes all that is sent, and ends once so many bytes came.
///
/// # Errors
///
/// Out of memory alone.
#[tactic(auto, unfolding(crate::specs::Generator::echo_script))]
pub fn echo_peer(alloc: Global, n: u64) -> Result<Peer, AllocError>
    ensures { IfOk result (λ peer. peer ≡ echo_script n) }
{
    Ok(Peer {
        kind: PeerKind::Client,
        addr: Addr {
            ip: [10, 0, 0, 2],
            port: 40_000,
        },
        chip: 5000,
        connect: Connects::Fine,
        takes: Vec::new(alloc),
        room: 65_536,
        say: sayings(alloc, n)?,
        end: Some(said_length(n)),
        fail: 0,
        lag: 0,
    })
}
