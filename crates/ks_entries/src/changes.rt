//! Changes, and the entries of the journal.
ghost use Rattle.std.specs.Prelude.{◌≡◌, ℕ, List, IfOk, IfSome, IfNone, OnOk};
ghost use Rattle.ks_spelling.specs.Codes.{Writes, Reads};
ghost use Rattle.ks_machine.specs.declared.change.Entry.{Entry};
ghost use Rattle.ks_entries.specs.Changes.{change_code, entry_code, IsEntry};

use ks_base::{
    AppCredRow, Bytes, DomainRow, EndpointRow, GrantRow, GroupRow, Id, ImplyRow, Key, KeyList,
    MemberRow, Memory, MfaRow, ProjectRow, RegionRow, RoleRow, SecretRow, ServiceRow, TrustRow,
    UserRow,
};
use ks_machine::{Change, Entry};
use ks_spelling::{Cursor, Spelled, Unread, write_at, write_two_at};
use std::alloc::Global;

#[tactic(auto, unfolding(crate::specs::Changes::change_code))]
fn write_change(change: &Change, into: &mut Vec<u8>) -> Result<(), Memory>
    ensures { OnOk result (Writes change_code change.now into.old.items into.new.items) }
{
    match change {
        Change::PutDomain(held) => write_at(0, held, into),
        Change::PutProject(held) => write_at(1, held, into),
        Change::PutUser(held) => write_at(2, held, into),
        Change::PutGroup(held) => write_at(3, held, into),
        Change::PutRole(held) => write_at(4, held, into),
        Change::PutTrust(held) => write_at(5, held, into),
        Change::DropDomain(held) => write_at(6, held, into),
        Change::DropProject(held) => write_at(7, held, into),
        Change::DropUser(held) => write_at(8, held, into),
        Change::DropGroup(held) => write_at(9, held, into),
        Change::DropRole(held) => write_at(10, held, into),
        Change::DropTrust(held) => write_at(11, held, into),
        Change::Join(held) => write_at(12, held, into),
        Change::Leave(held) => write_at(13, held, into),
        Change::Imply(held) => write_at(14, held, into),
        Change::Unimply(held) => write_at(15, held, into),
        Change::Grant(held) => write_at(16, held, into),
        Change::Ungrant(held) => write_at(17, held, into),
        Change::UseTrust(held) => write_at(18, held, into),
        Change::RevokeToken(held) => write_at(19, held, into),
        Change::Rotate(held) => write_at(20, held, into),
        Change::Load(held) => write_at(21, held, into),
        Change::PutRegion(held) => write_at(22, held, into),
        Change::PutService(held) => write_at(23, held, into),
        Change::PutEndpoint(held) => write_at(24, held, into),
        Change::DropRegion(held) => write_at(25, held, into),
        Change::DropService(held) => write_at(26, held, into),
        Change::DropEndpoint(held) => write_at(27, held, into),
        Change::PutAppCred(held) => write_at(28, held, into),
        Change::DropAppCred(held) => write_at(29, held, into),
        Change::PutSecret(held) => write_at(30, held, into),
        Change::DropSecret(held) => write_at(31, held, into),
        Change::PutUserWith(user, rules) => write_two_at(32, user, rules, into),
    }
}

#[tactic(auto, unfolding(crate::specs::Changes::change_code))]
fn read_change(alloc: Global, from: &mut Cursor<'_>) -> Result<Change, Unread>
    ensures { Reads (change_code.read from.old) from.new result }
{
    match u8::read_from(alloc, from)? {
        0 => Ok(Change::PutDomain(DomainRow::read_from(alloc, from)?)),
        1 => Ok(Change::PutProject(ProjectRow::read_from(alloc, from)?)),
        2 => Ok(Change::PutUser(UserRow::read_from(alloc, from)?)),
        3 => Ok(Change::PutGroup(GroupRow::read_from(alloc, from)?)),
        4 => Ok(Change::PutRole(RoleRow::read_from(alloc, from)?)),
        5 => Ok(Change::PutTrust(TrustRow::read_from(alloc, from)?)),
        6 => Ok(Change::DropDomain(Id::read_from(alloc, from)?)),
        7 => Ok(Change::DropProject(Id::read_from(alloc, from)?)),
        8 => Ok(Change::DropUser(Id::read_from(alloc, from)?)),
        9 => Ok(Change::DropGroup(Id::read_from(alloc, from)?)),
        10 => Ok(Change::DropRole(Id::read_from(alloc, from)?)),
        11 => Ok(Change::DropTrust(Id::read_from(alloc, from)?)),
        12 => Ok(Change::Join(MemberRow::read_from(alloc, from)?)),
        13 => Ok(Change::Leave(MemberRow::read_from(alloc, from)?)),
        14 => Ok(Change::Imply(ImplyRow::read_from(alloc, from)?)),
        15 => Ok(Change::Unimply(ImplyRow::read_from(alloc, from)?)),
        16 => Ok(Change::Grant(GrantRow::read_from(alloc, from)?)),
        17 => Ok(Change::Ungrant(GrantRow::read_from(alloc, from)?)),
        18 => Ok(Change::UseTrust(Id::read_from(alloc, from)?)),
        19 => Ok(Change::RevokeToken(<[u8; 16]>::read_from(alloc, from)?)),
        20 => Ok(Change::Rotate(Key::read_from(alloc, from)?)),
        21 => Ok(Change::Load(KeyList::read_from(alloc, from)?)),
        22 => Ok(Change::PutRegion(RegionRow::read_from(alloc, from)?)),
        23 => Ok(Change::PutService(ServiceRow::read_from(alloc, from)?)),
        24 => Ok(Change::PutEndpoint(EndpointRow::read_from(alloc, from)?)),
        25 => Ok(Change::DropRegion(Id::read_from(alloc, from)?)),
        26 => Ok(Change::DropService(Id::read_from(alloc, from)?)),
        27 => Ok(Change::DropEndpoint(Id::read_from(alloc, from)?)),
        28 => Ok(Change::PutAppCred(AppCredRow::read_from(alloc, from)?)),
        29 => Ok(Change::DropAppCred(Id::read_from(alloc, from)?)),
        30 => Ok(Change::PutSecret(SecretRow::read_from(alloc, from)?)),
        31 => Ok(Change::DropSecret(Id::read_from(alloc, from)?)),
        32 => {
            let user = UserRow::read_from(alloc, from)?;
            Ok(Change::PutUserWith(user, MfaRow::read_from(alloc, from)?))
        }
        _ => Err(Unread::NoSpelling),
    }
}

#[tactic(auto, unfolding(crate::specs::Changes::entry_code))]
fn write_fields(entry: &Entry, into: &mut Vec<u8>) -> Result<(), Memory>
    ensures { OnOk result (Writes entry_code entry.now into.old.items into.new.items) }
{
    entry.number.write_to(into)?;
    entry.moment.write_to(into)?;
    write_change(&entry.change, into)
}

#[tactic(auto, unfolding(crate::specs::Changes::entry_code))]
fn read_fields(alloc: Global, from: &mut Cursor<'_>) -> Result<Entry, Unread>
    ensures { Reads (entry_code.read from.old) from.new result }
{
    let number = u64::read_from(alloc, from)?;
    let moment = u64::read_from(alloc, from)?;
    let change = read_change(alloc, from)?;
    Ok(Entry {
        number,
        moment,
        change,
    })
}

/// The bytes of the entry. `Memory` also where a text or a list of it is past what the four bytes of its count hold.
pub fn write_entry(alloc: Global, entry: &Entry) -> Result<Bytes, Memory>
    ensures { IfOk result (λ bytes. IsEntry bytes entry.now) }
{
    let mut bytes = Vec::new(alloc);
    write_fields(entry, &mut bytes)?;
    Ok(Bytes::from_vec(bytes))
}

/// The entry that all of the bytes spell, or `None` exactly where they spell none.
pub fn read_entry(alloc: Global, bytes: &[u8]) -> Result<Option<Entry>, Memory>
    ensures some { IfOk result (λ read. IfSome read (λ entry. IsEntry bytes.now entry)) }
    ensures none { IfOk result (λ read. IfNone read ((entry : Entry) → ¬ IsEntry bytes.now entry)) }
{
    let mut cursor = Cursor::new(bytes);
    match read_fields(alloc, &mut cursor) {
        Ok(entry) => Ok(if cursor.is_empty() { Some(entry) } else { None }),
        Err(Unread::NoSpelling) => Ok(None),
        Err(Unread::Memory) => Err(Memory),
    }
}

/// Bytes spell one entry at most.
pub fn entries_differ()
    ensures { (bytes : List ℕ) (one other : Entry) → IsEntry bytes one → IsEntry bytes other → one ≡ other }
{}
