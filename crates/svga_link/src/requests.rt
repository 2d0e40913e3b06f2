//! Requests: their numbers, and the words that they are stored as and read from.
ghost use Rattle.std.specs.Prelude.{◌≡◌, ◌+◌, ◌%◌, ◌^◌, ◌<◌};
ghost use Rattle.svga_ring.specs.Requests.{IsRequest, request_of, request_value};

/// A request that is out: its number, and the region and the first page of the chain that it asks for.
#[derive(Clone, Copy, Debug, PartialEq, Eq)]
pub struct Request {
    pub number: u32,
    pub id: u32,
    pub descriptor: u32,
}

/// How many numbers there are for requests, which go round.
const NUMBERS: u32 = 1 << 20;

// How many values a descriptor has, a descriptor with an id, and an id.
const DESCRIPTORS: u64 = 1 << 32;

const NUMBERED: u64 = 1 << 44;

const IDS: u64 = 1 << 12;

/// The number of the request behind the one with this number.
pub(crate) fn next_number(number: u32) -> u32
    requires { number < 2 ^ 20 }
    ensures { result ≡ (number + 1) % 2 ^ 20 }
{
    (number + 1) % NUMBERS
}

/// The word of a request: its number in the highest 20 bits, then 12 bits of its region's id, and 32 of the
/// chain's first page.
pub(crate) fn request_word(number: u32, id: u32, descriptor: u32) -> u64
    requires { IsRequest (record { number = number; id = id; descriptor = descriptor }) }
    ensures { result ≡ request_value (record { number = number; id = id; descriptor = descriptor }) }
{
    (u64::from(number) << 44) + (u64::from(id) << 32) + u64::from(descriptor)
}

/// The request that a word stands for.
pub(crate) fn request_in(word: u64) -> Request
    ensures number { result.number ≡ (request_of word).number }
    ensures id { result.id ≡ (request_of word).id }
    ensures descriptor { result.descriptor ≡ (request_of word).descriptor }
{
    Request {
        number: (word / NUMBERED) as u32,
        id: (word / DESCRIPTORS % IDS) as u32,
        descriptor: (word % DESCRIPTORS) as u32,
    }
}
