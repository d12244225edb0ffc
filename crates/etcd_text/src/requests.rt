// What is asked of etcd's JSON gateway. Keys, tokens and bodies come as base64.
ghost use Rattle.std.specs.Prelude.{◌≡◌, ◌++◌, IfOk, OnOk};
ghost use Rattle.std.specs.String.{string_bytes};
ghost use Rattle.etcd_text.specs.Requests as requests;

use std::alloc::{AllocError, Global};

/// Asks for one key.
pub fn key_text(alloc: Global, key: &str) -> Result<String, AllocError>
    ensures { IfOk result (λ t. string_bytes t ≡ requests.key_text key.now) }
{
    format!(in alloc; "{{\"key\":\"{key}\"}}")
}

/// The head of a transaction: the owner's key stands at this revision.
fn compare_text(alloc: Global, owner: &str, fence: u64) -> Result<String, AllocError>
    ensures { IfOk result (λ t. string_bytes t ≡ requests.compare_text owner.now fence) }
{
    format!(in alloc;
        "{{\"compare\":[{{\"key\":\"{owner}\",\"target\":\"MOD\",\"result\":\"EQUAL\",\"mod_revision\":\"{fence}\"}}],\"success\":["
    )
}

/// Has a key put.
fn add_put(out: &mut String, key: &str, value: &str) -> Result<(), AllocError>
    ensures { OnOk result (string_bytes out.new ≡
        string_bytes out.old ++ requests.put_part key.now value.now) }
{
    write!(
        out,
        "{{\"request_put\":{{\"key\":\"{key}\",\"value\":\"{value}\"}}}}"
    )
}

/// Has the keys of a range counted.
fn add_count(out: &mut String, first: &str, end: &str) -> Result<(), AllocError>
    ensures { OnOk result (string_bytes out.new ≡
        string_bytes out.old ++ requests.count_part first.now end.now) }
{
    write!(
        out,
        ",{{\"request_range\":{{\"key\":\"{first}\",\"range_end\":\"{end}\",\"count_only\":true}}}}"
    )
}

/// Puts a row where the owner's key stands at this revision; 0 stands for no key.
#[tactic(auto, unfolding(crate::specs::Requests::put_text))]
pub fn put_text(
    alloc: Global,
    owner: &str,
    fence: u64,
    row: &str,
    body: &str,
) -> Result<String, AllocError>
    ensures { IfOk result
        (λ t. string_bytes t ≡ requests.put_text owner.now fence row.now body.now) }
{
    let mut out = compare_text(alloc, owner, fence)?;
    add_put(&mut out, row, body)?;
    out.push_str("],\"failure\":[]}")?;
    Ok(out)
}

/// Puts the owner's key where it stands at this revision, and counts the rows, whose keys begin
/// at `first` and come before `end`.
#[tactic(auto, unfolding(crate::specs::Requests::take_text))]
pub fn take_text(
    alloc: Global,
    owner: &str,
    fence: u64,
    token: &str,
    first: &str,
    end: &str,
) -> Result<String, AllocError>
    ensures { IfOk result
        (λ t. string_bytes t ≡ requests.take_text owner.now fence token.now first.now end.now) }
{
    let mut out = compare_text(alloc, owner, fence)?;
    add_put(&mut out, owner, token)?;
    add_count(&mut out, first, end)?;
    out.push_str("],\"failure\":[]}")?;
    Ok(out)
}
