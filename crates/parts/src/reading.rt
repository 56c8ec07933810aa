// The parts of a Put's data: candidate, passphrase and hint, each as long as its first byte says.
// They pass the same order check as runs and units. A Put takes them by their order; whoever asks which part holds a byte has the same search.
ghost use Rattle.std.specs.Prelude.{◌≡◌, ◌+◌, ◌^◌, ◌<◌, ◌≤◌, true, ◌&&◌, length, take, IfSome, MatchOption, if◌then◌else◌, Some, None, ◌==◌};
ghost use Rattle.std.specs.Option.{option_map};
ghost use Rattle.std.specs.List.{AllByRecursion};
ghost use Rattle.model.specs.Bytes.{byte};
ghost use Rattle.model.specs.Extents.{Fitting, sound, found, Finds};
ghost use Rattle.model.specs.Parts.{part, part_start, part_length, cut_parts, parts_end, parts_fill, part_bytes, phrase_in, hint_in, secret_of, change_of, candidate_in, secret_in, change_in};
ghost use Rattle.model.specs.Puts.{carried};
ghost use Rattle.parts.specs.Carries.{malformed, put_of};
ghost use Rattle.parts.specs.Secrets.{secret_behind, change_behind, HasRoom};
ghost use Rattle.parts.specs.Texts.{text_behind, text_in};

use crate::put::{NewSecret, UnitPut};
use extents::{find, is_sound};
use model::limits::{HINT_BYTES, LOCKABLE, PHRASE_BYTES};
use model::part::Part;
use model::request::Put;

// The last byte of a candidate or passphrase part.
const PHRASE_END: u8 = 0x00;

// The part that starts at a byte. Past the end of the data it is empty.
fn part_at(data: &[u8], at: u32) -> Part
    ensures value { result ≡ part at (byte «data».now at) }
    ensures bound { result.length ≤ 255 }
{
    let length = data.get(at as usize).map_or(0, |byte| u32::from(*byte));
    Part { start: at, length }
}

// The first three parts, one behind the other; no Put carries more.
fn cut_parts(data: &[u8]) -> [Part; 3]
    ensures value { result ≡ cut_parts 3 0 «data».now }
    ensures bound { AllByRecursion (λ p. p.start + p.length ≤ 765) result }
{
    let first = part_at(data, 0);
    let second = part_at(data, first.length);
    let third = part_at(data, second.start + second.length);
    [first, second, third]
}

// Where the last part ends, in 64 bits, so that no sum wraps.
fn parts_end(parts: &[Part]) -> u64
    ensures { result ≡ parts_end 0 parts.now }
{
    match parts {
        [] => 0,
        [.., last] => u64::from(last.start) + u64::from(last.length),
    }
}

// Whether the parts pass the order check, and their lengths add up to the data's. Data of 2^32 bytes are too long for any.
fn do_fill(parts: &[Part], data: &[u8]) -> bool
    requires { parts_end 0 parts.now < 2 ^ 32 }
    ensures value { result ≡ (sound part_start part_length 0 (length «data».now) parts.now && parts_end 0 parts.now == length «data».now) }
    ensures inside { result ≡ true → AllByRecursion (Fitting part_start part_length (length «data».now)) parts.now }
{
    u32::try_from(data.len()).is_ok_and(|end| is_sound(parts, end)
        && parts_end(parts) == u64::from(end))
}

// The parts of data that so many of them fill, or none where they do not. The count is no constant of the type: three are cut in any case.
fn filling_parts(data: &[u8], count: usize) -> Option<[Part; 3]>
    requires { count ≤ 3 }
    ensures value { result ≡ (if parts_fill count «data».now then Some (cut_parts 3 0 «data».now) else None) }
    ensures inside { IfSome result (λ ps. AllByRecursion (Fitting part_start part_length (length «data».now)) (take count ps)) }
{
    let parts = cut_parts(data);
    do_fill(&parts[..count], data).then_some(parts)
}

// The bytes of a part, by its place in the data.
fn part_bytes(data: &[u8], place: Part) -> &[u8]
    requires { place.start + place.length ≤ length «data».now }
    ensures { result.now ≡ part_bytes «data».now place }
{
    let start = place.start as usize;
    &data[start..start + place.length as usize]
}

// What a part holds behind its length and 25h, where that is no more than `most` bytes, and the last byte behind it.
fn text_in(bytes: &[u8], most: usize) -> Option<(&[u8], u8)>
    ensures value { option_map text_behind result ≡ text_in most bytes.now }
    ensures bound { IfSome result (λ x. length x.0.now ≤ most) }
{
    match bytes {
        [_, LOCKABLE, text @ .., end] if text.len() <= most => Some((text, *end)),
        _ => None,
    }
}

// The bytes of a candidate or passphrase part, whose last byte is 00h.
fn phrase_in(bytes: &[u8]) -> Option<&[u8]>
    ensures value { option_map (λ x. x.now) result ≡ phrase_in bytes.now }
    ensures bound { IfSome result (λ p. length p.now ≤ PHRASE_BYTES) }
{
    match text_in(bytes, PHRASE_BYTES)? {
        (phrase, PHRASE_END) => Some(phrase),
        _ => None,
    }
}

// The bytes of a hint part, whose last byte may be any.
fn hint_in(bytes: &[u8]) -> Option<&[u8]>
    ensures value { option_map (λ x. x.now) result ≡ hint_in bytes.now }
    ensures bound { IfSome result (λ h. length h.now ≤ HINT_BYTES) }
{
    let (hint, _) = text_in(bytes, HINT_BYTES)?;
    Some(hint)
}

// A candidate, which fills the data.
fn candidate_in(data: &[u8]) -> Option<&[u8]>
    ensures { option_map (λ x. x.now) result ≡ candidate_in «data».now }
{
    let [candidate, _, _] = filling_parts(data, 1)?;
    phrase_in(part_bytes(data, candidate))
}

// A new passphrase with its hint, from their two parts.
fn secret_of<'a>(phrase: &'a [u8], hint: &'a [u8]) -> Option<NewSecret<'a>>
    ensures value { option_map secret_behind result ≡ secret_of (phrase_in phrase.now) (hint_in hint.now) }
    ensures bound { IfSome result HasRoom }
{
    Some(NewSecret {
        phrase: phrase_in(phrase)?,
        hint: hint_in(hint)?,
    })
}

// A new passphrase with its hint, which fill the data.
fn secret_in(data: &[u8]) -> Option<NewSecret<'_>>
    ensures value { option_map secret_behind result ≡ secret_in «data».now }
    ensures bound { IfSome result HasRoom }
{
    let [phrase, hint, _] = filling_parts(data, 2)?;
    secret_of(part_bytes(data, phrase), part_bytes(data, hint))
}

// A candidate, a new passphrase and its hint, from their three parts.
fn change_of<'a>(
    candidate: &'a [u8],
    phrase: &'a [u8],
    hint: &'a [u8],
) -> Option<(&'a [u8], NewSecret<'a>)>
    ensures value { option_map change_behind result ≡ change_of (phrase_in candidate.now) (secret_of (phrase_in phrase.now) (hint_in hint.now)) }
    ensures bound { IfSome result (λ x. HasRoom x.1) }
{
    Some((phrase_in(candidate)?, secret_of(phrase, hint)?))
}

// A candidate, a new passphrase and its hint, which fill the data.
fn change_in(data: &[u8]) -> Option<(&[u8], NewSecret<'_>)>
    ensures value { option_map change_behind result ≡ change_in «data».now }
    ensures bound { IfSome result (λ x. HasRoom x.1) }
{
    let [candidate, phrase, hint] = filling_parts(data, 3)?;
    change_of(
        part_bytes(data, candidate),
        part_bytes(data, phrase),
        part_bytes(data, hint),
    )
}

// What a Put carries, or none where its data are malformed. Change Interface Access is no Put to a unit.
fn carried<'a>(put: Put, data: &'a [u8]) -> Option<UnitPut<'a>>
    ensures { MatchOption result (malformed put ≡ carried put «data».now) (λ u. put_of u ≡ carried put «data».now) }
{
    Some(match put {
        Put::StorePassphrase => UnitPut::Store(secret_in(data)?),
        Put::MatchPassphrase => UnitPut::Match {
            candidate: candidate_in(data)?,
        },
        Put::ChangePassphrase => {
            let (candidate, secret) = change_in(data)?;
            UnitPut::Change { candidate, secret }
        }
        Put::ErasePassphrase => UnitPut::Erase {
            candidate: candidate_in(data)?,
        },
        Put::EraseForgottenPassphrase => UnitPut::EraseForgotten,
        Put::LockAgain => UnitPut::LockAgain,
        Put::ChangeInterfaceAccess => UnitPut::Misfit,
    })
}

// What a Put to a unit carries in its data, which have arrived whole.
pub fn read_put<'a>(put: Put, data: &'a [u8]) -> UnitPut<'a>
    ensures { put_of result ≡ carried put «data».now }
{
    carried(put, data).unwrap_or(UnitPut::Malformed(put))
}

// Which part holds a byte of the data, by its number.
pub fn part_holding(parts: &[Part], position: u32) -> Option<usize>
    ensures value { result ≡ found part_start part_length 0 position parts.now }
    ensures finds { Finds part_start part_length position parts.now result }
{
    find(parts, position)
}
