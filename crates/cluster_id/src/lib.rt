//! The id of a cluster, which each header of its stores has: a store of another cluster is told by it.
//!
//! It is the version 5 UUID of RFC 9562 in the namespace of domain names, 6ba7b810-9dad-11d1-80b4-00c04fd430c8, of the
//! cluster's name, `/` and the number of nodes. So a store of `main` with three nodes is not taken for one of `main` with
//! five:
//!
//! ```text
//! main/1   4b87e673-c7ea-5398-ab17-5f9fe1f83617
//! main/3   78132a44-34a3-5acb-a338-05700cf31944
//! ```
#![tactic(auto)]

ghost use Rattle.std.specs.Prelude.{◌≡◌, IfOk};
ghost use Rattle.cluster_id.specs.Named.{full_name as full_name_of, cluster_id_of, number_of};

use cdb_values::Name;
use std::alloc::{AllocError, Global};
use uuid::Uuid;

/// The id of the cluster of this name with so many nodes, its first byte as the highest of the number. `Err` is want of
/// memory.
pub fn cluster_id(alloc: Global, cluster: &Name, nodes: u8) -> Result<u128, AllocError>
    ensures { IfOk result (λ id. id ≡ cluster_id_of cluster.now nodes) }
{
    let name = full_name(alloc, cluster, nodes)?;
    Ok(number(name.as_slice()))
}

/// The version 5 UUID of a name among domain names, as a number.
fn number(name: &[u8]) -> u128
    ensures { result ≡ number_of name.now }
{
    Uuid::new_v5(&Uuid::NAMESPACE_DNS, name).as_u128()
}

/// The cluster's name, `/` and the number of nodes.
fn full_name(alloc: Global, cluster: &Name, nodes: u8) -> Result<Vec<u8>, AllocError>
    ensures { IfOk result (λ name. name.items ≡ full_name_of cluster.now nodes) }
{
    let mut name = Vec::new(alloc);
    name.extend_from_slice(cluster.as_bytes())?;
    name.push(b'/')?;
    let number = nodes.to_string(alloc)?;
    name.extend_from_slice(number.as_bytes())?;
    Ok(name)
}
