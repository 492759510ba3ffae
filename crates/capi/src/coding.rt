// Slot type, block field and checks, for C.
ghost use Rattle.std.specs.Prelude.{◌≡◌, [], ◌∷◌};
ghost use Rattle.checks.specs.Checks.{header_check, block_check, message_check};
ghost use Rattle.codes.specs.SlotWord.{slot_word};
ghost use Rattle.layouts.specs.Lent.{Gives};
ghost use Rattle.capi.specs.Answers.{slot_read, field_written, field_read};

use layouts::lent::give_result;

// The 20 bits of a slot type.
#[unsafe(no_mangle)]
pub extern "C" fn kirruskabe_write_slot_type(octet: u8) -> u32
    ensures { result ≡ slot_word octet }
{
    codes::slot_type::write(octet)
}

fn alone(octet: u8) -> [u8; 1]
    ensures { result ≡ octet ∷ [] }
{
    [octet]
}

// The data octet of a word within 3 bits of a codeword.
#[unsafe(no_mangle)]
pub extern "C" fn kirruskabe_read_slot_type(word: u32, out: &mut [u8]) -> u8
    ensures { Gives 1 (slot_read word) out.old result out.new }
{
    give_result(out, codes::slot_type::read(word).map(alone))
}

// A block field.
#[unsafe(no_mangle)]
pub extern "C" fn kirruskabe_write_field(info: &[u8], out: &mut [u8]) -> u8
    ensures { Gives 25 (field_written info.now) out.old result out.new }
{
    let Some(info) = info.as_array::<12>() else {
        return crate::SIZE;
    };
    give_result(out, Ok(codes::block_field::write(*info)))
}

// The information of a block field.
#[unsafe(no_mangle)]
pub extern "C" fn kirruskabe_read_field(field: &[u8], out: &mut [u8]) -> u8
    ensures { Gives 12 (field_read field.now) out.old result out.new }
{
    give_result(out, codes::block_field::read(field))
}

// The header's check with any mask.
#[unsafe(no_mangle)]
pub extern "C" fn kirruskabe_header_check(mask: u16, octets: &[u8]) -> u16
    ensures { result ≡ header_check mask octets.now }
{
    checks::header(mask, octets)
}

// The check of a block's data octets and serial.
#[unsafe(no_mangle)]
pub extern "C" fn kirruskabe_block_check(serial: u8, octets: &[u8]) -> u16
    ensures { result ≡ block_check serial octets.now }
{
    checks::block(serial, octets)
}

// The message's check.
#[unsafe(no_mangle)]
pub extern "C" fn kirruskabe_message_check(octets: &[u8]) -> u32
    ensures { result ≡ message_check octets.now }
{
    checks::message(octets)
}
