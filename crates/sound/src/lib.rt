// Opcodes 03, 08 and 09, for the stream that opening was given.
#![tactic(auto)]

ghost use Rattle.std.specs.Prelude.{◌≡◌, cond, ℕ, ◌*◌, ◌≤◌, ◌<◌, eqb, length, MatchResult};
ghost use Rattle.refusal.specs.Number.{number, block};
ghost use Rattle.room.specs.Room.{written};
ghost use Rattle.sound.specs.Format.{is_set, chosen, masked, format_of, possible_format, possible_sound, first_sound, afresh as afreshAs, going_on};
ghost use Rattle.sound.specs.Step.{room_after, even, sample_bytes, exact, output, sound_after, enough, Writable, WritableOrNone, LongOrNone, data_step, silence_step};
ghost use Rattle.sound.specs.Sound.{heard_as, answer, initialize_audio, audio_data, audio_silence};

use dpcm::{Last, channels_of, decode_packet};
use refusal::Refusal;
use room::{put_all, put_same};
use words::{part_from, word_at};

// The bytes of a room that is always enough: a word counts the samples, each of at most two bytes.
const ENOUGH: usize = 131070;

// What a 03 said. wide: 16-bit samples, else 8-bit. compressed: 16-bit samples by steps.
#[derive(Clone, Copy)]
pub struct Format {
    pub stereo: bool,
    pub wide: bool,
    pub compressed: bool,
}

// stream: the chosen one; above 15 none is. format: that of the last 03. begun: a compressed 08 was taken since then. left, right: the last sample of each
// channel.
#[derive(Clone, Copy)]
pub struct Sound {
    pub stream: usize,
    pub format: Option<Format>,
    pub begun: bool,
    pub left: u16,
    pub right: u16,
}

// What a sound opcode that is taken comes to: the sound then, and the bytes written.
#[derive(Clone, Copy)]
pub struct Heard {
    pub sound: Sound,
    pub bytes: usize,
}

impl Format {
    #[tactic(auto, unfolding(crate::specs::Format::format_of))]
    fn new(version: usize, flags: usize) -> Format
        ensures { result ≡ format_of version flags }
    {
        Format {
            stereo: is_set(flags, 0),
            wide: is_set(flags, 1),
            compressed: version == 1 && is_set(flags, 2),
        }
    }

    #[tactic(auto, unfolding(crate::specs::Format::possible_format))]
    fn is_possible(self) -> bool
        ensures { result ≡ possible_format self }
    {
        !self.compressed || self.wide
    }

    #[tactic(auto, unfolding(crate::specs::Step::even))]
    fn is_even(self, count: usize) -> bool
        ensures { result ≡ even self.stereo count }
    {
        !self.stereo || count % 2 == 0
    }

    #[tactic(auto, unfolding(crate::specs::Step::sample_bytes))]
    fn sample_bytes(self) -> usize
        ensures { (result ≡ sample_bytes self.wide self.compressed) × (result ≤ 2) }
    {
        if self.compressed || self.wide { 2 } else { 1 }
    }

    // A byte of a zero sample.
    fn silent_byte(self) -> u8
        ensures { result ≡ cond (eqb (sample_bytes self.wide self.compressed) 2) 0 128 }
    {
        if self.sample_bytes() == 2 { 0 } else { 128 }
    }

    // The bytes of a count of samples, which a room of so many holds.
    fn bytes_within(self, count: usize, long: usize) -> Result<usize, Refusal>
        requires { count < 65536 }
        ensures { MatchResult result (λ n. (n ≡ count * sample_bytes self.wide self.compressed) × (n ≤ long)) (λ r. (number r ≡ 19) × (block r ≡ 0) × (long < count * sample_bytes self.wide self.compressed)) }
    {
        let bytes = count * self.sample_bytes();
        if long < bytes {
            Err(Refusal::Room)
        } else {
            Ok(bytes)
        }
    }

    // Whether data of so many bytes is that of a count of samples.
    #[tactic(auto, unfolding(crate::specs::Step::exact, crate::specs::Step::sample_bytes))]
    fn is_exact(self, begun: bool, count: usize, bytes: usize) -> bool
        requires { count < 65536 }
        ensures { result ≡ exact self.stereo self.wide self.compressed begun count bytes }
    {
        if !self.compressed {
            return bytes == count * self.sample_bytes();
        }
        if begun {
            return bytes == count;
        }
        let channels = channels_of(self.stereo);
        channels <= count && bytes == 2 * channels + (count - channels)
    }
}

impl Sound {
    // Before any 03.
    pub fn new(stream: usize) -> Sound
        ensures { result ≡ first_sound stream }
    {
        Sound {
            stream,
            format: None,
            begun: false,
            left: 0,
            right: 0,
        }
    }

    // Whether the format kept is not both 8-bit and compressed.
    pub fn is_possible(self) -> bool
        ensures { result ≡ possible_sound self }
    {
        match self.format {
            None => true,
            Some(format) => format.is_possible(),
        }
    }

    // After a 03.
    #[tactic(auto, unfolding(crate::specs::Format::afresh))]
    fn afresh(self, format: Format) -> Sound
        ensures { result ≡ afreshAs self format }
    {
        Sound {
            format: Some(format),
            ..Sound::new(self.stream)
        }
    }

    // After a compressed packet.
    #[tactic(auto, unfolding(crate::specs::Format::going_on))]
    fn going_on(self, last: Last) -> Sound
        ensures { result ≡ going_on self last }
    {
        Sound {
            begun: true,
            left: last.next,
            right: last.other,
            ..self
        }
    }
}

#[tactic(auto, unfolding(crate::specs::Format::is_set))]
fn is_set(word: usize, bit: usize) -> bool
    requires { bit < 16 }
    ensures { result ≡ is_set word bit }
{
    (word >> bit) % 2 == 1
}

// Whether a stream number chooses a stream.
pub fn is_chosen(stream: usize) -> bool
    ensures { result ≡ chosen stream }
{
    stream < 16
}

// Whether a mask has the bit of the chosen stream.
#[tactic(auto, unfolding(crate::specs::Format::masked))]
pub fn is_masked(stream: usize, mask: usize) -> bool
    ensures { result ≡ masked stream mask }
{
    stream < 16 && is_set(mask, stream)
}

// Opcode 03, initialize audio buffers.
#[tactic(auto, unfolding(crate::specs::Sound::initialize_audio, crate::specs::Sound::answer))]
pub fn initialize_audio(sound: Sound, version: usize, body: &[u8]) -> Result<Heard, Refusal>
    ensures { heard_as result ≡ answer (initialize_audio sound version body.now) }
{
    let format = Format::new(version, word_at(body, 2));
    if !format.is_possible() {
        return Err(Refusal::SoundFormat);
    }
    Ok(Heard {
        sound: sound.afresh(format),
        bytes: 0,
    })
}

// A packet's samples, and the sound then. An empty room drops the samples, here and below.
#[tactic(auto, unfolding(crate::specs::Step::sound_after, crate::specs::Step::output))]
fn write_data(sound: Sound, format: Format, data: &[u8], room: &mut [u8]) -> Sound
    requires { WritableOrNone format.stereo format.compressed sound.begun (length «data».now) (length room.old) }
    ensures value { result ≡ sound_after sound format.stereo format.compressed «data».now }
    ensures room_after { Writable format.stereo format.compressed sound.begun (length «data».now) (length room.old) → room.new ≡ written (output sound format.stereo format.compressed «data».now) room.old }
{
    if format.compressed {
        let last = Last {
            next: sound.left,
            other: sound.right,
        };
        let then = decode_packet(format.stereo, sound.begun, last, data, room);
        return sound.going_on(then);
    }
    if !room.is_empty() {
        put_all(room, data);
    }
    sound
}

// long: the bytes of the room that 19 goes by, here and below. Where samples are dropped it is `ENOUGH`.
#[tactic(auto, unfolding(crate::specs::Step::data_step, crate::specs::Step::within, crate::specs::Sound::answer, crate::specs::Step::room_after))]
fn data_step(
    sound: Sound,
    format: Format,
    count: usize,
    data: &[u8],
    long: usize,
    room: &mut [u8],
) -> Result<Heard, Refusal>
    requires count_bound { count < 65536 }
    requires long_or_none { LongOrNone long (length room.old) }
    ensures result_value { heard_as result ≡ answer (data_step sound format.stereo format.wide format.compressed count «data».now long) }
    ensures room_after { length room.old ≡ long → room.new ≡ room_after (data_step sound format.stereo format.wide format.compressed count «data».now long) room.old }
{
    if !format.is_even(count) {
        return Err(Refusal::SoundLength);
    }
    if !format.is_exact(sound.begun, count, data.len()) {
        return Err(Refusal::SoundLength);
    }
    let bytes = format.bytes_within(count, long)?;
    let sound = write_data(sound, format, data, room);
    Ok(Heard { sound, bytes })
}

// Zero samples: the sound stays, and so many bytes are to be written.
#[tactic(auto, unfolding(crate::specs::Step::silence_step, crate::specs::Step::within, crate::specs::Sound::answer))]
fn silence_step(sound: Sound, format: Format, count: usize, long: usize) -> Result<Heard, Refusal>
    requires { count < 65536 }
    ensures { heard_as result ≡ answer (silence_step sound format.stereo format.wide format.compressed count long) }
{
    if !format.is_even(count) {
        return Err(Refusal::SoundLength);
    }
    let bytes = format.bytes_within(count, long)?;
    Ok(Heard { sound, bytes })
}

// `audio_data` and `drop_audio_data`.
#[tactic(auto, unfolding(crate::specs::Sound::audio_data, crate::specs::Sound::of_mask, crate::specs::Sound::of_format, crate::specs::Sound::answer, crate::specs::Step::room_after, room::specs::Room::written))]
fn take_data(sound: Sound, body: &[u8], long: usize, room: &mut [u8]) -> Result<Heard, Refusal>
    requires { LongOrNone long (length room.old) }
    ensures result_value { heard_as result ≡ answer (audio_data sound body.now long) }
    ensures room_after { length room.old ≡ long → room.new ≡ room_after (audio_data sound body.now long) room.old }
{
    if !is_masked(sound.stream, word_at(body, 2)) {
        return Ok(Heard { sound, bytes: 0 });
    }
    let format = sound.format.ok_or(Refusal::SoundFormat)?;
    let data = part_from(body, 6);
    data_step(sound, format, word_at(body, 4), data, long, room)
}

// Opcode 08, audio data.
pub fn audio_data(sound: Sound, body: &[u8], room: &mut [u8]) -> Result<Heard, Refusal>
    ensures result_value { heard_as result ≡ answer (audio_data sound body.now (length room.old)) }
    ensures room_after { room.new ≡ room_after (audio_data sound body.now (length room.old)) room.old }
{
    let long = room.len();
    take_data(sound, body, long, room)
}

// Opcode 09, audio silence.
#[tactic(auto, unfolding(crate::specs::Sound::audio_silence, crate::specs::Sound::of_mask, crate::specs::Sound::of_format, crate::specs::Sound::answer, crate::specs::Step::room_after, room::specs::Room::written))]
pub fn audio_silence(sound: Sound, body: &[u8], room: &mut [u8]) -> Result<Heard, Refusal>
    ensures result_value { heard_as result ≡ answer (audio_silence sound body.now (length room.old)) }
    ensures room_after { room.new ≡ room_after (audio_silence sound body.now (length room.old)) room.old }
{
    if !is_masked(sound.stream, word_at(body, 2)) {
        return Ok(Heard { sound, bytes: 0 });
    }
    let format = sound.format.ok_or(Refusal::SoundFormat)?;
    let heard = silence_step(sound, format, word_at(body, 4), room.len())?;
    put_same(room, heard.bytes, format.silent_byte());
    Ok(heard)
}

// Opcode 08 where its samples are dropped: it answers as in every room that is always enough, so 19 is not met. empty is a room of no bytes.
pub fn drop_audio_data(sound: Sound, body: &[u8], empty: &mut [u8]) -> Result<Heard, Refusal>
    requires { length empty.old ≡ 0 }
    ensures { (room : ℕ) → enough ≤ room → heard_as result ≡ answer (audio_data sound body.now room) }
{
    take_data(sound, body, ENOUGH, empty)
}

// Opcode 09 where its samples are dropped.
#[tactic(auto, unfolding(crate::specs::Sound::audio_silence, crate::specs::Sound::of_mask, crate::specs::Sound::of_format, crate::specs::Sound::answer))]
pub fn drop_audio_silence(sound: Sound, body: &[u8]) -> Result<Heard, Refusal>
    ensures { (room : ℕ) → enough ≤ room → heard_as result ≡ answer (audio_silence sound body.now room) }
{
    if !is_masked(sound.stream, word_at(body, 2)) {
        return Ok(Heard { sound, bytes: 0 });
    }
    let format = sound.format.ok_or(Refusal::SoundFormat)?;
    silence_step(sound, format, word_at(body, 4), ENOUGH)
}
