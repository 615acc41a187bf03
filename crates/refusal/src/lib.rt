// Why a call is refused, by name; document 01's number and block of each.
#![tactic(auto)]

ghost use Rattle.std.specs.Prelude.{◌≡◌};
ghost use Rattle.refusal.specs.Number.{number, block};

#[derive(Clone, Copy, PartialEq, Eq, Debug)]
pub enum Refusal {
    // The header is wrong or short.
    Header,
    // A chunk or its head passes the film's end.
    FilmEnd,
    // An opcode or its head passes its chunk, or bytes follow an end opcode.
    ChunkEnd,
    // An opcode's type or version is not taken.
    Opcode,
    // An opcode's body has the wrong length.
    BodyLength,
    // The size is wrong, or one is known already.
    Size,
    // A palette range or component is too large.
    Palette,
    // A lent palette or picture has the wrong length.
    Buffer,
    // A packet comes without a size or a map.
    NoMap,
    // The map has the wrong length.
    MapLength,
    // The place is above the block count.
    Place,
    // The block's code is refused.
    Code(usize),
    // The block has too few data bytes.
    DataShort(usize),
    // The block is copied from outside the picture.
    CopyOutside(usize),
    // Data bytes are left over.
    LeftOver,
    // The state is one that no film gives.
    State,
    // Sound of the chosen stream comes before its format, or a format is both 8-bit and compressed.
    SoundFormat,
    // A sound's data is not that of its sample count, or the count is not one for its channels.
    SoundLength,
    // The output room is too small.
    Room,
    // The second part of a packet with true colour begins outside it.
    Parts,
    // The film ends before a size.
    NoSize,
    // The position lies outside the picture.
    Position,
    // The packet of a made frame, with its front, is longer than an opcode's body can be.
    PacketLength,
    // A Video 1 frame's data ends before all blocks are passed.
    FrameShort,
    // A skip of a Video 1 frame passes the last block.
    SkipOutside,
    // Behind the last block of a Video 1 frame stands not the end mark alone.
    EndMark,
}

impl Refusal {
    pub fn number(self) -> u8
        ensures { result ≡ number self }
    {
        match self {
            Refusal::Header => 1,
            Refusal::FilmEnd => 2,
            Refusal::ChunkEnd => 3,
            Refusal::Opcode => 4,
            Refusal::BodyLength => 5,
            Refusal::Size => 6,
            Refusal::Palette => 7,
            Refusal::Buffer => 8,
            Refusal::NoMap => 9,
            Refusal::MapLength => 10,
            Refusal::Place => 11,
            Refusal::Code(_) => 12,
            Refusal::DataShort(_) => 13,
            Refusal::CopyOutside(_) => 14,
            Refusal::LeftOver => 15,
            Refusal::State => 16,
            Refusal::SoundFormat => 17,
            Refusal::SoundLength => 18,
            Refusal::Room => 19,
            Refusal::Parts => 20,
            Refusal::NoSize => 21,
            Refusal::Position => 22,
            Refusal::PacketLength => 23,
            Refusal::FrameShort => 24,
            Refusal::SkipOutside => 25,
            Refusal::EndMark => 26,
        }
    }

    // The block that is drawn, where a block is refused; else 0.
    pub fn block(self) -> usize
        ensures { result ≡ block self }
    {
        match self {
            Refusal::Code(k) | Refusal::DataShort(k) | Refusal::CopyOutside(k) => k,
            _ => 0,
        }
    }
}
