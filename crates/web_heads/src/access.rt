// The options of a server: which heads are let in, and as whom a message speaks.
ghost use Rattle.std.specs.Prelude.{◌≡◌, map, option_copied};
ghost use Rattle.std.specs.Prelude.{option_map, option_to_list};
ghost use Rattle.std.specs.Char.{is_ascii_graphic};
ghost use Rattle.std.specs.List.{list_all, list_any};
ghost use Rattle.std.specs.Str.{str_eq_ignore_ascii_case};
ghost use Rattle.std.specs.String.{string_bytes};
ghost use Rattle.httparse.specs.Grammar.{is_token};
ghost use Rattle.web_heads.specs.Accesses as spec;
ghost use Rattle.web_heads.specs.Accesses.{is_address, is_host_text, is_local, is_own_host, is_port_end};
ghost use Rattle.web_heads.specs.Accesses.{access_of, host_of, open_access};

use crate::digits::are_digits;
use httparse::is_token;
use std::alloc::Global;
use std::marker::Model;

/// The options of a server that say which heads are let in, and as whom a message speaks
/// (docs/RULES.md, "Foreign heads", "Users").
#[derive(Debug, Drop)]
pub struct Access {
    hosts: Vec<String>,
    user: Option<String>,
}

impl Model for Access {
    ghost use Rattle.std.specs.Prelude.{map, option_map};
    ghost use Rattle.std.specs.String.{string_bytes};
    ghost use Rattle.web_heads.specs.Accesses.{AccessData};

    ghost Value = { AccessData };

    ghost view = { λ a. record {
      hosts = map string_bytes a.hosts.items;
      user = option_map string_bytes a.user;
    } };
}

impl Access {
    /// All heads are let in, and each message speaks as anyone. It takes no memory.
    pub fn open(alloc: Global) -> Access
        ensures { result ≡ open_access }
    {
        Access {
            hosts: Vec::new(alloc),
            user: None,
        }
    }

    /// Heads that name one of these hosts are let in, and those that name a local one: all where
    /// `hosts` is empty. A message speaks as the user whom the header of the name `user` names, as
    /// anyone where that is `None`.
    ///
    /// `None` exactly where a host is empty or has a byte that is no graphic ASCII character, or
    /// `user` is no name of a header.
    pub fn new(hosts: Vec<String>, user: Option<String>) -> Option<Access>
        ensures { result ≡ access_of (map string_bytes hosts.items) (option_map string_bytes user) }
    {
        if !are_host_texts(&hosts) {
            return None;
        }
        if !is_user_name(&user) {
            return None;
        }
        Some(Access { hosts, user })
    }

    /// The hosts that are answered beside the local ones.
    pub(crate) fn hosts(&self) -> &[String]
        ensures { map string_bytes result.now ≡ self.now.hosts }
    {
        self.hosts.as_slice()
    }

    /// The name of the header that names the user.
    pub(crate) fn user(&self) -> Option<&str>
        ensures { option_copied result ≡ self.now.user }
    {
        match &self.user {
            Some(name) => Some(name.as_str()),
            None => None,
        }
    }
}

fn are_graphic(bytes: &[u8]) -> bool
    ensures { result ≡ list_all is_ascii_graphic bytes.now }
{
    bytes.iter().all(|byte| byte.is_ascii_graphic())
}

/// Whether a head may name a host so.
fn is_host_text(text: &[u8]) -> bool
    ensures { result ≡ is_host_text text.now }
{
    if text.len() < 1 {
        return false;
    }
    are_graphic(text)
}

/// Whether a head may name each of these.
fn are_host_texts(hosts: &[String]) -> bool
    ensures { result ≡ list_all is_host_text (map string_bytes hosts.now) }
{
    for host in hosts {
        if !is_host_text(host.as_bytes()) {
            return false;
        }
    }
    true
}

/// Whether this is the name of a header, if it is there.
fn is_user_name(user: &Option<String>) -> bool
    ensures { result ≡ list_all is_token (option_to_list (option_map string_bytes user.now)) }
{
    match user {
        Some(name) => is_token(name.as_bytes()),
        None => true,
    }
}

/// Whether these are `:` and digits.
fn is_port_end(bytes: &[u8]) -> bool
    ensures { result ≡ is_port_end bytes.now }
{
    match bytes {
        [b':', digits @ ..] => are_digits(digits),
        _ => false,
    }
}

/// The host in a value of Host: what stands before `:` and digits at its end.
pub fn host_of(value: &[u8]) -> &[u8]
    ensures { result.now ≡ host_of value.now }
{
    for place in 0..value.len() {
        if is_port_end(&value[place..]) {
            return &value[..place];
        }
    }
    value
}

/// Whether these are four numbers and dots.
fn is_address(host: &[u8]) -> bool
    ensures { result ≡ is_address host.now }
{
    let mut dots = 3u32;
    let mut begun = false;
    for byte in host {
        if byte.is_ascii_digit() {
            begun = true;
            continue;
        }
        if *byte != b'.' {
            return false;
        }
        if !begun {
            return false;
        }
        if dots == 0 {
            return false;
        }
        dots -= 1;
        begun = false;
    }
    begun && dots == 0
}

/// Whether these stand in `[ ]`.
fn is_bracketed(host: &[u8]) -> bool
    ensures { result ≡ spec.is_bracketed host.now }
{
    if !matches!(host, [b'[', ..]) {
        return false;
    }
    matches!(host, [.., b']'])
}

/// Whether a host is no name of another machine.
fn is_local(host: &[u8]) -> bool
    ensures { result ≡ is_local host.now }
{
    if host.is_empty() {
        return true;
    }
    if is_address(host) {
        return true;
    }
    if is_bracketed(host) {
        return true;
    }
    host.eq_ignore_ascii_case(b"localhost")
}

/// Whether a host is this one, without regard to ASCII case.
fn is_same_host(host: &[u8], name: &str) -> bool
    ensures { result ≡ str_eq_ignore_ascii_case host.now name.now }
{
    host.eq_ignore_ascii_case(name.as_bytes())
}

/// Whether a host is one of these, without regard to ASCII case.
fn is_among(hosts: &[String], host: &[u8]) -> bool
    ensures { result ≡ list_any (str_eq_ignore_ascii_case host.now) (map string_bytes hosts.now) }
{
    for name in hosts {
        if is_same_host(host, name.as_str()) {
            return true;
        }
    }
    false
}

/// Whether a host is local, or one of these.
pub fn is_own_host(hosts: &[String], host: &[u8]) -> bool
    ensures { result ≡ is_own_host (map string_bytes hosts.now) host.now }
{
    if is_local(host) {
        return true;
    }
    is_among(hosts, host)
}
