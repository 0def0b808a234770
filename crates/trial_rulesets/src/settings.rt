//! Files of settings.

use cli_files::{FileFault, NodeFile};
use std::alloc::Global;
use std::test::Fail;

const FILE: &str = "# the first node
cluster = 7
me = 0
members = [
    \"192.0.2.1:4711\",
    \"192.0.2.2:4711\",
]
store = '/var/db/pfx.db'
unsealed = true
";

fn fault_of(alloc: Global, text: &str) -> Option<FileFault> {
    match NodeFile::read(alloc, text.as_bytes()) {
        Ok(file) => {
            drop(file);
            None
        }
        Err(fault) => Some(fault),
    }
}

#[test]
fn a_file_names_what_it_has(rt: HostRuntime) -> Result<(), Fail> {
    let alloc = rt.alloc();
    let file = NodeFile::read(alloc, FILE.as_bytes())?;
    assert_eq!(rt; file.number("cluster"), Some(7));
    assert_eq!(rt; file.number("me"), Some(0));
    assert_eq!(rt; file.text("store"), Some("/var/db/pfx.db"));
    assert!(rt; file.text("control").is_none());
    assert!(rt; file.flag("unsealed"));
    assert!(rt; !file.flag("quiet"));
    let members = file.texts(alloc, "members")?;
    assert_eq!(rt; members.len(), 2);
    assert_eq!(rt; members.get(1).copied(), Some("192.0.2.2:4711"));
    let none = NodeFile::empty(alloc);
    assert!(rt; none.number("cluster").is_none());
    Ok(())
}

#[test]
fn a_wrong_file_is_refused_with_its_line(rt: HostRuntime) -> Result<(), Fail> {
    let alloc = rt.alloc();
    assert!(rt; fault_of(alloc, FILE).is_none());
    assert!(rt; fault_of(alloc, "").is_none());
    assert_eq!(rt;
        fault_of(alloc, "me = 0\ncluster =\n"),
        Some(FileFault::Syntax(2))
    );
    assert_eq!(rt;
        fault_of(alloc, "me = 0\nme = 1\n"),
        Some(FileFault::Syntax(2))
    );
    assert_eq!(rt;
        fault_of(alloc, "me = 0\n  stroe = \"a\"\n"),
        Some(FileFault::Unknown(Some(2)))
    );
    assert_eq!(rt;
        fault_of(alloc, "\n[metrics]\nat = 1\n"),
        Some(FileFault::Value(Some(2)))
    );
    assert_eq!(rt;
        fault_of(alloc, "\nme = 256\n"),
        Some(FileFault::Value(Some(2)))
    );
    assert_eq!(rt; fault_of(alloc, "me = -1"), Some(FileFault::Value(Some(1))));
    assert_eq!(rt;
        fault_of(alloc, "cluster = 4294967296"),
        Some(FileFault::Value(Some(1)))
    );
    assert_eq!(rt;
        fault_of(alloc, "members = \"a\""),
        Some(FileFault::Value(Some(1)))
    );
    assert_eq!(rt;
        fault_of(alloc, "members = [\"a\", 1]"),
        Some(FileFault::Value(Some(1)))
    );
    assert_eq!(rt;
        fault_of(alloc, "\"st\\u006fer\" = 1"),
        Some(FileFault::Unknown(None))
    );
    let bytes: [u8; 2] = [0xC3, 0x28];
    assert!(rt; matches!(NodeFile::read(alloc, &bytes), Err(FileFault::Syntax(1))));
    Ok(())
}
