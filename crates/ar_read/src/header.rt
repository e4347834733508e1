//! A member with its header (ar.h, `ar_hdr`).

ghost use Rattle.std.specs.Prelude.{◌≡◌, ◌+◌, ◌≤◌, length, IfOk};
ghost use Rattle.ds_base.specs.Reading.{Finds};
ghost use Rattle.ar_read.specs.Header.{member_at, seen, named_at};

use crate::number::read_number;
use crate::padding::unpadded;
use ds_base::macho::{AR_EFMT1, AR_HDR_SIZE, ARFMAG};
use ds_base::{Fault, Kind, Part, bytes_from, cut};

/// A member of an archive. `size` is that of its header, in bytes.
#[derive(Clone, Copy)]
pub(crate) struct Member<'a> {
    pub name: &'a [u8],
    pub content: &'a [u8],
    pub size: u64,
}

/// The member that the bytes begin with; they begin at `place` in the archive.
#[tactic(auto, unfolding(crate::specs::Header::member_at))]
pub(crate) fn read_member(bytes: &[u8], place: u64) -> Result<Member<'_>, Fault>
    ensures read { Finds seen result (member_at place bytes.now) }
    ensures fits { IfOk result (λ member. 60 + member.size ≤ length bytes.now) }
{
    let header_size = AR_HDR_SIZE as usize;
    if bytes.len() < header_size {
        return Err(archive_fault(Kind::BadMember, place));
    }
    if !bytes_from(bytes, 58).starts_with(&ARFMAG) {
        return Err(archive_fault(Kind::BadMember, place));
    }
    let Some(size) = read_number(cut(bytes, 48, 10)) else {
        return Err(archive_fault(Kind::BadMember, place));
    };
    if ((bytes.len() - header_size) as u64) < size {
        return Err(archive_fault(Kind::BadMember, place));
    }
    let body = cut(bytes, header_size, size as usize);
    read_name(cut(bytes, 0, 16), body, place)
}

/// The member with this name field and these bytes, of which the first are a long name.
#[tactic(auto, unfolding(crate::specs::Header::named_at))]
fn read_name<'a>(field: &'a [u8], body: &'a [u8], place: u64) -> Result<Member<'a>, Fault>
    requires { length field.now ≡ 16 }
    ensures read { Finds seen result (named_at place field.now body.now) }
    ensures size { IfOk result (λ member. member.size ≡ length body.now) }
{
    let size = body.len() as u64;
    if !field.starts_with(&AR_EFMT1) {
        return Ok(Member {
            name: unpadded(field, b' '),
            content: body,
            size,
        });
    }
    let Some(len) = read_number(bytes_from(field, 3)) else {
        return Err(archive_fault(Kind::BadMember, place));
    };
    if size < len {
        return Err(archive_fault(Kind::BadMember, place));
    }
    Ok(Member {
        name: unpadded(cut(body, 0, len as usize), 0),
        content: bytes_from(body, len as usize),
        size,
    })
}

/// A fault at an offset in the archive.
pub(crate) fn archive_fault(kind: Kind, place: u64) -> Fault
    ensures { result ≡ Rattle.ar_read.specs.Header.archive_fault kind place }
{
    Fault {
        kind,
        section: Part::Archive,
        place,
    }
}
