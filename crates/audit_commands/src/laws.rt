//! Laws of the commands, as theorems: functions whose contracts are all that they are for.

ghost use Rattle.audit_commands.specs.Laws.{WrittenCertificatesAreGood};

/// What an audit writes passes a check. Where a file is a history and another the certificate of an audit of it, and
/// neither is longer than its limit, a check of the two asks for the status `Done`, and for no other.
pub fn written_certificates_are_good()
    ensures { WrittenCertificatesAreGood }
{}
