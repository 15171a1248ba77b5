//! The rules of users, in the order of their ids, and when they are met.
ghost use Rattle.std.specs.Prelude.{◌≡◌, ◌+◌, ◌<◌, ◌≤◌, filter, length, vec_len, vec_capacity, Some};
ghost use Rattle.std.specs.List.{list_any};
ghost use Rattle.std.specs.List.Sorted.{IsSearchInRange};
ghost use Rattle.ks_base.specs.Places.{IsPlace};
ghost use Rattle.ks_base.specs.Tables.{id_cmp, IsAscending, put_row, drop_row};
ghost use Rattle.ks_totp.specs.Factors.{is_within, row_met, some_met};

use ks_base::{Id, MfaRow, Test};

/// The place of the rules of this user, or the one where they belong.
pub(crate) fn place(rows: &[MfaRow], user: &Id) -> Result<usize, usize>
    requires { IsAscending id_cmp (λ row. row.user) rows.now }
    ensures bound { IsSearchInRange result (length rows.now) }
    ensures place { IsPlace id_cmp (λ row. row.user) user.now rows.now result }
{
    rows.binary_search_by(|row| row.user.cmp(user))
}

/// Puts the row in the place of its user, over the one that stands there. There is room for it.
pub(crate) fn put(rows: &mut Vec<MfaRow>, row: MfaRow)
    requires ascending { IsAscending id_cmp (λ row. row.user) rows.old.items }
    requires room { vec_len rows.old < vec_capacity rows.old }
    ensures rows { rows.new.items ≡ put_row id_cmp (λ row. row.user) row rows.old.items }
    ensures len { vec_len rows.new ≤ vec_len rows.old + 1 }
    ensures capacity { vec_capacity rows.old ≤ vec_capacity rows.new }
{
    match place(rows.as_slice(), &row.user) {
        Ok(at) => rows[at] = row,
        Err(at) => {
            let _inserted = rows.insert(at, row);
        }
    }
}

/// Takes the rules of the user out, if there are any. It takes no memory.
pub(crate) fn remove(rows: &mut Vec<MfaRow>, user: &Id)
    requires { IsAscending id_cmp (λ row. row.user) rows.old.items }
    ensures rows { rows.new.items ≡ drop_row id_cmp (λ row. row.user) user.now rows.old.items }
    ensures len { vec_len rows.new ≤ vec_len rows.old }
    ensures capacity { vec_capacity rows.old ≤ vec_capacity rows.new }
{
    match place(rows.as_slice(), user) {
        Ok(at) => {
            let _row = rows.remove(at);
        }
        Err(_) => {}
    }
}

/// Leaves the rules of users that pass the test. It takes no memory.
pub(crate) fn keep_of<T: Test<Id>>(rows: &mut Vec<MfaRow>, users: &T)
    ensures rows { rows.new.items ≡ filter (λ row. T.test users.now row.user) rows.old.items }
    ensures len { vec_len rows.new ≤ vec_len rows.old }
    ensures capacity { vec_capacity rows.old ≤ vec_capacity rows.new }
{
    rows.retain(|row| users.test(&row.user));
}

fn any_within(rules: &[u8], methods: u8) -> bool
    ensures { result ≡ list_any (is_within methods) rules.now }
{
    rules.iter().any(|rule| rule & methods == *rule)
}

fn some_met(rules: &[u8], methods: u8) -> bool
    ensures { result ≡ some_met methods rules.now }
{
    rules.is_empty() || any_within(rules, methods)
}

/// Whether the methods meet these rules of a user.
pub(crate) fn row_met(row: &MfaRow, methods: u8) -> bool
    ensures { result ≡ row_met methods (Some row.now) }
{
    !row.enabled || some_met(row.rules.as_slice(), methods)
}
