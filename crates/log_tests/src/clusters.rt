//! The ids of clusters, beside those that Python's `uuid.uuid5(uuid.NAMESPACE_DNS, "main/1")` gives, and so on.

use cdb_values::Name;
use cluster_id::cluster_id;
use std::alloc::{AllocError, Global};

/// The id of a cluster, by its name.
fn id(alloc: Global, name: &[u8], nodes: u8) -> Result<u128, AllocError> {
    let name = Name::copied(alloc, name)?;
    cluster_id(alloc, &name, nodes)
}

#[test]
fn ids_are_those_of_another_program(rt: HostRuntime) -> Result<(), AllocError> {
    let alloc = rt.alloc();
    assert!(rt; id(alloc, b"main", 1)? == 0x4b87e673c7ea5398ab175f9fe1f83617);
    assert!(rt; id(alloc, b"main", 3)? == 0x78132a4434a35acba33805700cf31944);
    assert!(rt;
        id(alloc, b"a_cluster_of_a_name_of_32_bytes_", 7)? == 0xd4f851ee410d5d17bc8d37cd9dd2ecdf
    );
    Ok(())
}
