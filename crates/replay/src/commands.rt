// The cases of `encode`: the command's place in a list, its number's bits, the buffer's length, and the
// hops. The buffer holds A5 everywhere, so that what is not written shows.
use crate::answers::Answers;
use crate::{cases, writes};
use command::Command;
use std::io;

// What a command's number may be: the same four bytes in each of its forms. The flags are the lowest bits.
#[derive(Clone, Copy)]
pub(crate) struct Number {
    pub(crate) float: f32,
    pub(crate) signed: i32,
    pub(crate) bits: u32,
    pub(crate) half: u16,
    pub(crate) first: bool,
    pub(crate) second: bool,
}

impl From<u32> for Number {
    fn from(bits: u32) -> Number {
        Number {
            float: floats::f32_from_bits(bits),
            signed: packer::as_i32(bits),
            bits,
            half: (bits % 65536) as u16,
            first: bits % 2 == 1,
            second: bits / 2 % 2 == 1,
        }
    }
}

// A command's place in the list, with its number: `raw` of readers.rt has the other enum.
fn plain(place: u8, n: Number) -> Command {
    match place {
        0 => Command::FwVersion,
        1 => Command::GetValues,
        2 => Command::SetDuty(n.float),
        3 => Command::SetCurrent(n.float),
        4 => Command::SetCurrentBrake(n.float),
        5 => Command::SetRpm(n.signed),
        6 => Command::SetPos(n.float),
        7 => Command::SetHandbrake(n.float),
        8 => Command::Reboot,
        9 => Command::Alive,
        10 => Command::GetValuesSelective(n.bits),
        11 => Command::GetValuesSetupSelective(n.bits),
        12 => Command::SetCurrentRel(n.float),
        13 => Command::SetOdometer(n.bits),
        14 => Command::GetStats(n.half),
        15 => Command::ResetStats(n.first),
        16 => Command::Shutdown(n.first, n.second),
        17 => Command::FwInfo,
        _ => Command::MotorEstop(n.half),
    }
}

pub(crate) fn case(answers: &mut Answers, case: &[u8]) -> io::Result<()> {
    if case.len() < 7 {
        return answers.cut_short();
    }
    let sent = plain(case[0], Number::from(cases::word_at(case, 1)));
    let room = cases::half_at(case, 5);
    let mut space = cases::UNTOUCHED;
    let Some(buf) = space.get_mut(..room) else {
        return answers.too_much_room();
    };
    writes::count(answers, encode::encode(sent, &case[7..], buf))?;
    answers.mix_bytes(buf)?;
    answers.digest()
}
