ghost use Rattle.std.specs.Prelude.{◌≡◌, ◌++◌, ℕ, List};
ghost use Rattle.sha2.specs.Sha256.{sha256};
ghost use Rattle.sha2.specs.Hashers.{Holds256};
ghost use Rattle.cluster_file.specs.Texts.{row_text, table_text, config_text};

use node_core::Config;
use protocol::{NodeId, Row};
use sha2::{Digest, Sha256};

/// A row goes into a digest.
fn add_row(hasher: &mut Sha256, row: &Row)
    ensures { (m : List ℕ) → Holds256 hasher.old m → Holds256 hasher.new (m ++ row_text row.now) }
{
    let key = row.key.as_slice();
    let value = row.value.as_slice();
    hasher.update((key.len() as u64).to_be_bytes());
    hasher.update(key);
    hasher.update((value.len() as u64).to_be_bytes());
    hasher.update(value);
}

/// A table goes into a digest.
fn add_table(hasher: &mut Sha256, rows: &[Row])
    ensures { (m : List ℕ) → Holds256 hasher.old m → Holds256 hasher.new (m ++ table_text rows.now) }
{
    hasher.update((rows.len() as u64).to_be_bytes());
    for row in rows {
        add_row(hasher, row);
    }
}

/// The digest of what a cluster is for ever: its sizes, its kind, and its first tables. Nodes of one cluster have the same.
pub fn digest(config: &Config) -> [u8; 32]
    ensures { result ≡ sha256 (config_text config.now) }
{
    let sizes = config.sizes();
    let mut hasher = Sha256::new();
    hasher.update([
        sizes.acceptors,
        sizes.leaders,
        sizes.managers,
        u8::from(sizes.bundled),
    ]);
    for rm in 0..sizes.managers {
        add_table(&mut hasher, config.rows_of(NodeId::R(rm)));
    }
    hasher.finalize()
}
