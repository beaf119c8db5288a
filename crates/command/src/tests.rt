// What arguments ask for, and what is told, on examples.
use crate::arguments::{Request, request_of};
use crate::trouble::Trouble;
use std::alloc::{AllocError, Global};
use std::env::Args;
use std::test::Fail;

// The arguments of those words.
fn args_of(heap: Global, words: &[&str]) -> Result<Args, AllocError> {
    let mut args = Vec::new(heap);
    for word in words {
        args.push(String::from_str(heap, word)?)?;
    }
    Ok(args.into_iter())
}

#[test]
fn requests(rt: HostRuntime) -> Result<(), Fail> {
    let heap = rt.alloc();
    assert_eq!(rt; request_of(args_of(heap, &[])?).ok(), Some(Request::Run));
    assert_eq!(rt;
        request_of(args_of(heap, &["-h"])?).ok(),
        Some(Request::Help)
    );
    assert_eq!(rt;
        request_of(args_of(heap, &["--help", "-h"])?).ok(),
        Some(Request::Help)
    );
    Ok(())
}

#[test]
fn other_arguments(rt: HostRuntime) -> Result<(), Fail> {
    let Err(other) = request_of(args_of(rt.alloc(), &["-h", "-?", "--help", "x"])?) else {
        return Err(Fail::new("asked for"));
    };
    assert!(rt; other.as_str() == "-?");
    Ok(())
}

#[test]
fn messages(rt: HostRuntime) -> Result<(), Fail> {
    let heap = rt.alloc();
    let argument: Trouble<&str> = Trouble::Argument(String::from_str(heap, "-?")?);
    assert!(rt;
        argument.to_string(heap)?.as_str() == "\"-?\" is no argument of mine: --help tells more"
    );
    let input = Trouble::Input("line 4: a field is missing");
    assert!(rt; input.to_string(heap)?.as_str() == "line 4: a field is missing");
    let memory: Trouble<&str> = Trouble::from(AllocError);
    assert!(rt; memory.to_string(heap)?.as_str() == "out of memory");
    Ok(())
}
