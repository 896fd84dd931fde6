ghost use Rattle.std.specs.Prelude.{◌≡◌, ◌≤◌, Ok, Err, IfOk, IfErr, OnOk, IfSome, MatchOption};
ghost use Rattle.std.specs.Prelude.{map, option_map, string_bytes, bytes_eq};
ghost use Rattle.std.specs.List.{list_all, list_any};
ghost use Rattle.std.specs.Net.Grammar.{IsSocketText};
ghost use Rattle.std.specs.declared.net.socket_addr.SocketAddr.{SocketAddr as SocketAddress};
ghost use Rattle.toml.specs.Data.{get_member};
ghost use Rattle.toml.specs.View.{table_view, array_view, view};
ghost use Rattle.cluster_file.specs.Addresses.{socket_of};
ghost use Rattle.cluster_file.specs.Mistakes.{is_bare, is_bare_byte, key_at, mistake_at, reads_at, Says, IsRefused};
ghost use Rattle.cluster_file.specs.Nodes.{keys_at};
ghost use Rattle.cluster_file.specs.Reads.{text_of, flag_of, number_of, number_within, table_of, list_of, address_of};

use crate::error::{ClusterError, Fault};
use std::alloc::{AllocError, Global};
use std::net::SocketAddr;
use toml::{Table, Value};

/// A table of the file, and what stands before its keys in a path.
#[derive(Clone, Copy)]
pub(crate) struct Section<'a> {
    pub(crate) alloc: Global,
    pub(crate) path: &'a str,
    pub(crate) table: &'a Table,
}

/// Whether a byte may stand in a key without quotes.
fn is_bare_byte(byte: u8) -> bool
    ensures { result ≡ is_bare_byte byte }
{
    byte.is_ascii_alphanumeric() || byte == b'_' || byte == b'-'
}

/// Whether each byte of a key may stand there without quotes.
fn are_bare(key: &str) -> bool
    ensures { result ≡ list_all is_bare_byte key.now }
{
    key.as_bytes().iter().all(|byte| is_bare_byte(*byte))
}

/// Whether a key is written without quotes.
fn is_bare(key: &str) -> bool
    ensures { result ≡ is_bare key.now }
{
    are_bare(key) && !key.is_empty()
}

/// A key behind a path, as it is shown.
fn shown(alloc: Global, path: &str, key: &str) -> Result<String, AllocError>
    ensures { IfOk result (λ text. IfSome (key_at path.now key.now) (λ at. string_bytes text ≡ at)) }
{
    if is_bare(key) {
        return format!(in alloc; "{path}{key}");
    }
    format!(in alloc; "{path}{key:?}")
}

/// The address that a text writes, of either version.
#[tactic(auto, using(crate::proofs::SocketLemmas::socket_there, crate::proofs::SocketLemmas::socket_missing))]
fn socket_of(text: &str) -> Option<SocketAddr>
    ensures value { result ≡ socket_of text.now }
    ensures grammar { MatchOption result ((address : SocketAddress) → ¬ (IsSocketText text.now address)) (IsSocketText text.now) }
{
    match SocketAddr::parse_ascii(text.as_bytes()) {
        Ok(address) => Some(address),
        Err(_) => None,
    }
}

/// A number, if it is from low to high.
fn within(number: i64, low: u32, high: u32) -> Result<u32, Fault>
    ensures { result ≡ number_within low high number }
{
    match u32::try_from(number) {
        Ok(number) if low <= number && number <= high => Ok(number),
        _ => Err(Fault::Outside { low, high }),
    }
}

impl<'a> Section<'a> {
    /// A fault at a key of it.
    pub(crate) fn fault(&self, key: &str, fault: Fault) -> ClusterError
        ensures { Says (mistake_at self.now.path.now key.now fault) result }
    {
        match shown(self.alloc, self.path, key) {
            Ok(path) => ClusterError::Wrong { path, fault },
            Err(_) => ClusterError::Memory,
        }
    }

    /// The value at a key, if it is there.
    fn at(&self, key: &str) -> Option<&'a Value>
        ensures { option_map (λ v. view v.now) result ≡ get_member key.now (table_view self.now.table.now) }
    {
        self.table.get(key)
    }

    /// Each of its keys is one of these.
    pub(crate) fn check_keys(&self, known: &[&str]) -> Result<(), ClusterError>
        ensures ok { OnOk result
            (keys_at self.now.path.now (map (λ k. k.now) known.now) (table_view self.now.table.now) ≡ Ok tt) }
        ensures err { IfErr result
            (IsRefused (keys_at self.now.path.now (map (λ k. k.now) known.now) (table_view self.now.table.now))) }
    {
        for (key, _) in self.table.iter() {
            if !is_among(key.as_str(), known) {
                return Err(self.fault(key.as_str(), Fault::Unknown));
            }
        }
        Ok(())
    }

    /// The text at a key, if it is there.
    #[tactic(auto, using(crate::proofs::Found::text_missing, crate::proofs::Found::text_there, crate::proofs::Found::text_refused))]
    pub(crate) fn text(&self, key: &str) -> Result<Option<&'a str>, ClusterError>
        ensures ok { IfOk result (λ text.
            text_of (get_member key.now (table_view self.now.table.now)) ≡ Ok (option_map (λ t. t.now) text)) }
        ensures err { IfErr result
            (IsRefused (reads_at self.now.path.now key.now (text_of (get_member key.now (table_view self.now.table.now))))) }
    {
        let Some(value) = self.at(key) else {
            return Ok(None);
        };
        match value.as_str() {
            Some(text) => Ok(Some(text)),
            None => Err(self.fault(key, Fault::NoText)),
        }
    }

    /// The address at a key, if it is there.
    #[tactic(auto, using(crate::proofs::AddressLemmas::address_reading))]
    pub(crate) fn address(&self, key: &str) -> Result<Option<SocketAddr>, ClusterError>
        ensures ok { IfOk result (λ address. address_of (get_member key.now (table_view self.now.table.now)) ≡ Ok address) }
        ensures err { IfErr result
            (IsRefused (reads_at self.now.path.now key.now (address_of (get_member key.now (table_view self.now.table.now))))) }
    {
        let text = match self.text(key) {
            Ok(Some(text)) => text,
            Ok(None) => return Ok(None),
            Err(error) => return Err(error),
        };
        let Some(address) = socket_of(text) else {
            return Err(self.fault(key, Fault::NoAddress));
        };
        if address.port() == 0 {
            return Err(self.fault(key, Fault::NoAddress));
        }
        Ok(Some(address))
    }

    /// Whether a key says so. It doesn't where it is missing.
    #[tactic(auto, using(crate::proofs::Found::flag_missing, crate::proofs::Found::flag_there, crate::proofs::Found::flag_refused))]
    pub(crate) fn flag(&self, key: &str) -> Result<bool, ClusterError>
        ensures ok { IfOk result (λ flag. flag_of (get_member key.now (table_view self.now.table.now)) ≡ Ok flag) }
        ensures err { IfErr result
            (IsRefused (reads_at self.now.path.now key.now (flag_of (get_member key.now (table_view self.now.table.now))))) }
    {
        let Some(value) = self.at(key) else {
            return Ok(false);
        };
        match value.as_bool() {
            Some(flag) => Ok(flag),
            None => Err(self.fault(key, Fault::NoBoolean)),
        }
    }

    /// The number at a key, between two others, or what it is where it is missing.
    #[tactic(auto, using(crate::proofs::Found::number_reading))]
    pub(crate) fn number(
        &self,
        key: &str,
        low: u32,
        high: u32,
        missing: u32,
    ) -> Result<u32, ClusterError>
        requires { (low ≤ missing) × (missing ≤ high) }
        ensures fits { IfOk result (λ number. (low ≤ number) × (number ≤ high)) }
        ensures ok { IfOk result (λ number.
            number_of low high missing (get_member key.now (table_view self.now.table.now)) ≡ Ok number) }
        ensures err { IfErr result (IsRefused (reads_at self.now.path.now key.now
            (number_of low high missing (get_member key.now (table_view self.now.table.now))))) }
    {
        let Some(value) = self.at(key) else {
            return Ok(missing);
        };
        let Some(number) = value.as_integer() else {
            return Err(self.fault(key, Fault::NoNumber));
        };
        match within(number, low, high) {
            Ok(number) => Ok(number),
            Err(fault) => Err(self.fault(key, fault)),
        }
    }

    /// The table at a key, if it is there.
    #[tactic(auto, using(crate::proofs::Found::table_missing, crate::proofs::Found::table_there, crate::proofs::Found::table_refused))]
    pub(crate) fn inner(&self, key: &str) -> Result<Option<&'a Table>, ClusterError>
        ensures ok { IfOk result (λ inner.
            table_of (get_member key.now (table_view self.now.table.now)) ≡ Ok (option_map (λ t. table_view t.now) inner)) }
        ensures err { IfErr result
            (IsRefused (reads_at self.now.path.now key.now (table_of (get_member key.now (table_view self.now.table.now))))) }
    {
        let Some(value) = self.at(key) else {
            return Ok(None);
        };
        match value.as_table() {
            Some(table) => Ok(Some(table)),
            None => Err(self.fault(key, Fault::NoTable)),
        }
    }

    /// The list at a key.
    #[tactic(auto, using(crate::proofs::Found::list_missing, crate::proofs::Found::list_there, crate::proofs::Found::list_refused))]
    pub(crate) fn list(&self, key: &str) -> Result<&'a Vec<Value>, ClusterError>
        ensures ok { IfOk result (λ list.
            list_of (get_member key.now (table_view self.now.table.now)) ≡ Ok (array_view list.now)) }
        ensures err { IfErr result
            (IsRefused (reads_at self.now.path.now key.now (list_of (get_member key.now (table_view self.now.table.now))))) }
    {
        let Some(value) = self.at(key) else {
            return Err(self.fault(key, Fault::Missing));
        };
        match value.as_array() {
            Some(list) => Ok(list),
            None => Err(self.fault(key, Fault::NoList)),
        }
    }
}

/// Whether a text is one of these.
fn is_among(text: &str, known: &[&str]) -> bool
    ensures { result ≡ list_any (λ other. bytes_eq other.now text.now) known.now }
{
    known.iter().any(|other| *other == text)
}
