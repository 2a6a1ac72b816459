// Where the fields of a reply end. Ports of the replies' readers in src/command.rs how far they go; no record is
// built. specs/Layout.antt and specs/Replies.antt describe each reply once, as a list of items.
// The part and the place in it are two parameters: document 01 asks for the position by value.
#![tactic(auto, using(crate::proofs::Steps::steps), unfolding(crate::specs::Layout::extent, crate::specs::Layout::extent_of, crate::specs::Replies::fields_end, crate::specs::Replies::layout_in, packer::specs::Numbers::total))]

ghost use Rattle.std.specs.Prelude.{◌≡◌, [], ◌∷◌};
ghost use Rattle.refusals.specs.Refusals.{consumed};
ghost use Rattle.tables.specs.Sorts.{table_of};
ghost use Rattle.layout.specs.Layout.{masked, extent};
ghost use Rattle.layout.specs.Replies.{get_values, fw_version_layout, fw_info_layout, fields_end};

use refusals::DecodeError;
use tables::Sort;

// Each place is named for the last of the fields before it.
fn fw_version_end(part: &[u8], at: usize) -> Result<usize, DecodeError>
    ensures { consumed result ≡ extent fw_version_layout part.now at }
{
    let minor = packer::consume(part, at, 2)?;
    let hw_name = names::find_nul(part, minor, format::FW_VERSION_NAME_MAX_LEN)?;
    let uuid = packer::consume(part, hw_name, 12)?;
    let nrf_flags = packer::consume(part, uuid, 8)?;
    let fw_name = names::find_nul(part, nrf_flags, format::FW_VERSION_NAME_MAX_LEN)?;
    packer::consume(part, fw_name, 4)
}

fn fw_info_end(part: &[u8], at: usize) -> Result<usize, DecodeError>
    ensures { consumed result ≡ extent fw_info_layout part.now at }
{
    let test_version_number = packer::consume(part, at, 3)?;
    let commit_hash = names::find_nul(
        part,
        test_version_number,
        format::FW_INFO_COMMIT_HASH_MAX_LEN,
    )?;
    names::find_nul(part, commit_hash, format::FW_INFO_COMMIT_HASH_MAX_LEN)
}

fn get_values_end(part: &[u8], at: usize) -> Result<usize, DecodeError>
    ensures { consumed result ≡ extent get_values part.now at }
{
    packer::consume(part, at, tables::span(Sort::Values, format::ALL_VALUES))
}

// The place after a mask and the fields that it has.
fn masked_end(part: &[u8], at: usize, sort: Sort) -> Result<usize, DecodeError>
    ensures { consumed result ≡ extent (masked (table_of sort) ∷ []) part.now at }
{
    let (mask, next) = packer::unpack_u32(part, at)?;
    packer::consume(part, next, tables::span(sort, mask))
}

// The place after the fields that follow an id, which start at `at`. By the byte and no enum, because any byte may stand there.
pub fn fields_end(part: &[u8], id: u8, at: usize) -> Result<usize, DecodeError>
    ensures { consumed result ≡ fields_end id part.now at }
{
    match id {
        format::FW_VERSION => fw_version_end(part, at),
        format::GET_VALUES => get_values_end(part, at),
        format::GET_VALUES_SELECTIVE => masked_end(part, at, Sort::Values),
        format::GET_VALUES_SETUP_SELECTIVE => masked_end(part, at, Sort::SetupValues),
        format::GET_STATS => masked_end(part, at, Sort::Stats),
        format::RESET_STATS => Ok(at),
        format::FW_INFO => fw_info_end(part, at),
        _ => Err(DecodeError::UnknownPacket { id }),
    }
}
