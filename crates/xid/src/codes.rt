ghost use Rattle.std.specs.Prelude.{◌≡◌};
ghost use Rattle.xid.specs.Codes.{code_number};

/// A return code of X/Open XA (C193), chapter "The xa.h Header", by its short name there.
#[derive(Clone, Copy, Debug, PartialEq, Eq)]
pub enum XaCode {
    /// XA_OK: done.
    Ok,
    /// XA_RBROLLBACK: the branch may only be rolled back.
    RbRollback,
    /// XAER_NOTA: there is no branch of that XID.
    Nota,
    /// XAER_INVAL: a key or a value has a wrong length.
    Inval,
    /// XAER_PROTO: the branch isn't in a state for the call.
    Proto,
    /// XAER_RMFAIL: the resource manager is down.
    RmFail,
    /// XAER_DUPID: the XID is in use, or was.
    DupId,
}

impl XaCode {
    /// Its number in the standard.
    pub fn number(self) -> i8
        ensures { result ≡ code_number self }
    {
        match self {
            XaCode::Ok => 0,
            XaCode::RbRollback => 100,
            XaCode::Nota => -4,
            XaCode::Inval => -5,
            XaCode::Proto => -6,
            XaCode::RmFail => -7,
            XaCode::DupId => -8,
        }
    }
}
