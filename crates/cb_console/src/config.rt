//! The settings of a run.
ghost use Rattle.std.specs.Prelude.{◌≡◌, ◌≢◌, ◌≤◌, Some, None, IfOk, IfErr, OnOk, option_map};
ghost use Rattle.std.specs.Str.{IsUtf8};
ghost use Rattle.toml.specs.Parse.{parse_document};
ghost use Rattle.toml.specs.View.{table_view, view};
ghost use Rattle.cb_page.specs.Bounds.{AreInRange};
ghost use Rattle.cb_page.specs.Faults.{first_fault};
ghost use Rattle.cb_console.specs.Settings.{Gives, IsConfig, IsFirst, IsTable, RefusesConfig};
ghost use Rattle.cb_console.specs.Settings.{bounds_by, bounds_causes, config_by, config_line};
ghost use Rattle.cb_console.specs.Settings.{config_text, default_kin, default_kout, defaulted_of};
ghost use Rattle.cb_console.specs.Settings.{defaulted_values, is_known, key_name, number_at};
ghost use Rattle.cb_console.specs.Settings.{optional_causes, others_causes, range_causes};
ghost use Rattle.cb_console.specs.Settings.{required_causes, required_number, required_of};
ghost use Rattle.cb_console.specs.Settings.{required_values, table_causes, unknown_causes};
ghost use Rattle.cb_console.specs.Settings.{value_at, whole_number};
ghost use Rattle.cb_console.specs.declared.config.ConfigFault.TheVariants as fault;
ghost use Rattle.cb_console.specs.declared.config.Key.TheVariants as key;

use crate::escaped::Escaped;
use cb_page::{LimitFault, Limits, MAX_NUMBER};
use std::alloc::{AllocError, AllocFailed, Global};
use std::fmt;
use thiserror::Error;
use toml::{Table, Value};

/// A setting, in the order in which they are checked.
#[derive(Clone, Copy, Debug)]
pub enum Key {
    Clients,
    Pages,
    PageSize,
    Slots,
    Kin,
    Kout,
    Jobs,
    KeepWrite,
    Lives,
}

impl Key {
    /// The key as a configuration spells it.
    pub fn name(self) -> &'static str
        ensures { result.now ≡ key_name self }
    {
        match self {
            Key::Clients => "clients",
            Key::Pages => "pages",
            Key::PageSize => "page_size",
            Key::Slots => "slots",
            Key::Kin => "kin",
            Key::Kout => "kout",
            Key::Jobs => "jobs",
            Key::KeepWrite => "keep_write",
            Key::Lives => "lives",
        }
    }
}

impl fmt::Display for Key {
    ghost output = { λ key. Some (key_name key) };

    fn fmt<W: fmt::Write>(&self, f: &mut fmt::Formatter<W>) -> fmt::Result {
        let name = self.name();
        write!(f, "{name}")
    }
}

/// Every setting.
const KEYS: [Key; 9] = [
    Key::Clients,
    Key::Pages,
    Key::PageSize,
    Key::Slots,
    Key::Kin,
    Key::Kout,
    Key::Jobs,
    Key::KeepWrite,
    Key::Lives,
];

/// What is wrong with a configuration, in the order of the checks; the first is answered. The text
/// is the rest of the program's line of it.
#[derive(Debug, Drop, Error)]
pub enum ConfigFault {
    /// Not TOML, or not UTF-8.
    Text,
    /// No setting has this key, the first of such keys in the order of their bytes.
    Unknown(String),
    /// A required key isn't there.
    Missing(Key),
    /// A value is no number from 0 to 2^62 - 1.
    NotWhole(Key),
    /// The numbers are no limits of a store.
    Limit(LimitFault),
    /// There are more than 100,000 jobs.
    Jobs,
    /// `keep_write` is neither 0 nor 1.
    KeepWrite,
    /// `lives` is neither 0 nor 1.
    Lives,
    /// There is no memory to read the text.
    Memory,
}

impl fmt::Display for ConfigFault {
    ghost output = { λ fault. Some (config_line fault) };

    fn fmt<W: fmt::Write>(&self, f: &mut fmt::Formatter<W>) -> fmt::Result {
        match self {
            ConfigFault::Text => write!(f, "text"),
            ConfigFault::Unknown(name) => {
                let name = Escaped(name.as_str());
                write!(f, "unknown {name}")
            }
            ConfigFault::Missing(key) => write!(f, "missing {key}"),
            ConfigFault::NotWhole(key) => write!(f, "{key} is not a whole number"),
            ConfigFault::Limit(fault) => write!(f, "limit {fault}"),
            ConfigFault::Jobs => write!(f, "jobs"),
            ConfigFault::KeepWrite => write!(f, "keep_write"),
            ConfigFault::Lives => write!(f, "lives"),
            ConfigFault::Memory => write!(f, "memory"),
        }
    }
}

impl From<AllocError> for ConfigFault {
    ghost from_gives = { λ _ e. e ≡ fault.Memory };

    fn from(_error: AllocError) -> ConfigFault {
        ConfigFault::Memory
    }
}

impl<T: Drop> From<AllocFailed<T>> for ConfigFault {
    ghost from_gives = { λ _ e. e ≡ fault.Memory };

    fn from(_error: AllocFailed<T>) -> ConfigFault {
        ConfigFault::Memory
    }
}

/// The settings of a run.
#[derive(Clone, Copy, PartialEq, Eq)]
pub struct Config {
    /// The store and its clients' pools.
    pub limits: Limits,
    /// How many jobs each worker has.
    pub jobs: u32,
    /// Whether a schedule is played over several lives of the server.
    pub lives: bool,
}

/// The most jobs of a worker.
const MOST_JOBS: u64 = 100_000;

/// The settings that must be there.
#[derive(Clone, Copy)]
struct RequiredNumbers {
    clients: u64,
    pages: u64,
    page_size: u64,
    slots: u64,
}

/// The settings that have a default.
#[derive(Clone, Copy)]
struct DefaultedNumbers {
    kin: u64,
    kout: u64,
    jobs: u64,
    keep_write: u64,
    lives: u64,
}

/// Reads a configuration: TOML with whole numbers.
///
/// `clients`, `pages`, `page_size` and `slots` are required. `kin` is a quarter of the slots if it
/// isn't there, `kout` half of them, both at least 1; `jobs`, `keep_write` and
/// `lives` are 0.
pub fn read_config(alloc: Global, text: &[u8]) -> Result<Config, ConfigFault>
    ensures ok { IfOk result (IsConfig text.now) }
    ensures in_range { IfOk result (λ config. AreInRange config.limits) }
    ensures fault { IfErr result (RefusesConfig text.now) }
{
    let table = read_table(alloc, text)?;
    settings_of(alloc, &table)
}

/// The settings that a table means, or the first that is wrong with it.
#[tactic(auto, using(crate::proofs::ConfigLemmas::behind, crate::proofs::ConfigLemmas::ahead, crate::proofs::ConfigLemmas::clear_append))]
fn settings_of(alloc: Global, table: &Table) -> Result<Config, ConfigFault>
    ensures gives { Gives (first_fault (table_causes (table_view table.now)))
        (config_by (required_of (table_view table.now)) (defaulted_of (table_view table.now)))
        result }
    ensures in_range { IfOk result (λ config. AreInRange config.limits) }
{
    refuse_unknown(alloc, table)?;
    let required = required_of(table)?;
    let others = defaulted_of(table, required.slots)?;
    config_of(required, others)
}

/// The numbers that must be there.
#[tactic(auto, using(crate::proofs::ConfigLemmas::behind, crate::proofs::ConfigLemmas::ahead, crate::proofs::ConfigLemmas::clear_append), unfolding(crate::specs::Settings::required_values))]
fn required_of(table: &Table) -> Result<RequiredNumbers, ConfigFault>
    ensures { Gives (first_fault (required_values (table_view table.now)))
        (required_of (table_view table.now)) result }
{
    Ok(RequiredNumbers {
        clients: required(table, Key::Clients)?,
        pages: required(table, Key::Pages)?,
        page_size: required(table, Key::PageSize)?,
        slots: required(table, Key::Slots)?,
    })
}

/// The numbers that have a default, that of `kin` and `kout` by the number of slots.
#[tactic(auto, using(crate::proofs::ConfigLemmas::behind, crate::proofs::ConfigLemmas::ahead, crate::proofs::ConfigLemmas::clear_append), unfolding(crate::specs::Settings::defaulted_values))]
fn defaulted_of(table: &Table, slots: u64) -> Result<DefaultedNumbers, ConfigFault>
    requires { slots ≡ required_number (table_view table.now) key.Slots }
    ensures { Gives (first_fault (defaulted_values (table_view table.now)))
        (defaulted_of (table_view table.now)) result }
{
    Ok(DefaultedNumbers {
        kin: optional(table, Key::Kin)?.unwrap_or(default_kin(slots)),
        kout: optional(table, Key::Kout)?.unwrap_or(default_kout(slots)),
        jobs: optional(table, Key::Jobs)?.unwrap_or(0),
        keep_write: optional(table, Key::KeepWrite)?.unwrap_or(0),
        lives: optional(table, Key::Lives)?.unwrap_or(0),
    })
}

/// The settings of these numbers.
#[tactic(auto, using(crate::proofs::ConfigLemmas::behind, crate::proofs::ConfigLemmas::ahead, crate::proofs::ConfigLemmas::clear_append), unfolding(crate::specs::Settings::range_causes))]
fn config_of(required: RequiredNumbers, others: DefaultedNumbers) -> Result<Config, ConfigFault>
    ensures gives { Gives (first_fault (range_causes required others))
        (config_by required others) result }
    ensures in_range { IfOk result (λ config. AreInRange config.limits) }
{
    let limits = limits_of(required, others)?;
    let jobs = jobs_of(others)?;
    Ok(Config {
        limits,
        jobs,
        lives: others.lives == 1,
    })
}

/// How many jobs there are. Refuses too many, and a `keep_write` or `lives` that is neither 0 nor
/// 1.
#[tactic(auto, unfolding(crate::specs::Settings::others_causes))]
fn jobs_of(others: DefaultedNumbers) -> Result<u32, ConfigFault>
    ensures { Gives (first_fault (others_causes others)) others.jobs result }
{
    if others.jobs > MOST_JOBS {
        return Err(ConfigFault::Jobs);
    }
    if others.keep_write > 1 {
        return Err(ConfigFault::KeepWrite);
    }
    if others.lives > 1 {
        return Err(ConfigFault::Lives);
    }
    Ok(others.jobs as u32)
}

/// The table that a text is.
fn read_table(alloc: Global, text: &[u8]) -> Result<Table, ConfigFault>
    ensures ok { IfOk result (λ table. IsTable text.now (table_view table)) }
    ensures fault { IfErr result (λ e. e ≢ fault.Memory
        → (e ≡ fault.Text) × (IsUtf8 text.now → parse_document text.now ≡ None)) }
{
    match toml::table_from_slice(alloc, text) {
        Ok(table) => Ok(table),
        Err(error) if error.is_memory() => Err(ConfigFault::Memory),
        Err(_) => Err(ConfigFault::Text),
    }
}

#[tactic(auto, unfolding(crate::specs::Settings::is_known))]
fn is_known(name: &str) -> bool
    ensures { result ≡ is_known name.now }
{
    KEYS.iter().any(|known| known.name() == name)
}

/// Refuses the first key, in the order of bytes, that is no setting.
fn refuse_unknown(alloc: Global, table: &Table) -> Result<(), ConfigFault>
    ensures { Gives (first_fault (unknown_causes (table_view table.now))) tt result }
{
    for name in table.keys() {
        if !is_known(name.as_str()) {
            return Err(ConfigFault::Unknown(String::from_str(alloc, name.as_str())?));
        }
    }
    Ok(())
}

/// What the table has at a key.
#[tactic(auto, using(toml::proofs::Views::table_get), unfolding(crate::specs::Settings::value_at))]
fn value_at(table: &Table, key: Key) -> Option<&Value>
    ensures { option_map (λ value. view value.now) result ≡ value_at (table_view table.now) key }
{
    table.get(key.name())
}

/// A number from 0 to 2^62 - 1.
fn whole_number(value: &Value) -> Option<u64>
    ensures { result ≡ whole_number (view value.now) }
{
    match value {
        Value::Integer(number) => u64::try_from(*number)
            .ok()
            .filter(|number| *number <= MAX_NUMBER),
        _ => None,
    }
}

/// The number of a setting that needn't be there.
#[tactic(auto, unfolding(crate::specs::Settings::optional_causes, crate::specs::Settings::number_at))]
fn optional(table: &Table, key: Key) -> Result<Option<u64>, ConfigFault>
    ensures { Gives (first_fault (optional_causes (table_view table.now) key))
        (number_at (table_view table.now) key) result }
{
    match value_at(table, key) {
        None => Ok(None),
        Some(value) => match whole_number(value) {
            Some(number) => Ok(Some(number)),
            None => Err(ConfigFault::NotWhole(key)),
        },
    }
}

/// The number of a setting that must be there.
#[tactic(auto, unfolding(crate::specs::Settings::required_causes, crate::specs::Settings::required_number, crate::specs::Settings::optional_causes, crate::specs::Settings::number_at))]
fn required(table: &Table, key: Key) -> Result<u64, ConfigFault>
    ensures { Gives (first_fault (required_causes (table_view table.now) key))
        (required_number (table_view table.now) key) result }
{
    match value_at(table, key) {
        None => Err(ConfigFault::Missing(key)),
        Some(value) => whole_number(value).ok_or(ConfigFault::NotWhole(key)),
    }
}

/// The limits of these numbers.
#[tactic(auto, using(crate::proofs::ConfigLemmas::limit_fault, crate::proofs::ConfigLemmas::limit_none), unfolding(crate::specs::Settings::bounds_causes))]
fn limits_of(required: RequiredNumbers, others: DefaultedNumbers) -> Result<Limits, ConfigFault>
    ensures gives { Gives (first_fault (bounds_causes (bounds_by required others)))
        (bounds_by required others) result }
    ensures in_range { IfOk result AreInRange }
{
    let limits = Limits::new(
        required.clients,
        required.pages,
        required.page_size,
        required.slots,
        others.kin,
        others.kout,
    );
    match limits {
        Ok(limits) if others.keep_write == 1 => Ok(limits.keeping()),
        Ok(limits) => Ok(limits),
        Err(fault) => Err(ConfigFault::Limit(fault)),
    }
}

/// A quarter of the slots, at least 1.
fn default_kin(slots: u64) -> u64
    ensures { result ≡ default_kin slots }
{
    (slots / 4).max(1)
}

/// Half of the slots, at least 1.
fn default_kout(slots: u64) -> u64
    ensures { result ≡ default_kout slots }
{
    (slots / 2).max(1)
}
