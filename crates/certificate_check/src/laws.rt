//! The laws of certificates. They speak of definitions alone: no call is made.

ghost use Rattle.certificate_check.specs.Laws.{CertificatesAreTested, OneVerdict, ReportsListAll};
ghost use Rattle.certificate_check.specs.Laws.{SolutionsAreCertified};

/// Bytes have one verdict, but for the place of a syntax error of their source.
pub fn one_verdict()
    ensures { OneVerdict }
{}

/// The tables and the store of a certificate are tested; and those that are a solution are certified: whatever may be
/// said of such a certificate is that, with the report of its tables.
pub fn solutions_are_certified()
    ensures tested { CertificatesAreTested }
    ensures certified { SolutionsAreCertified }
{}

/// The report of any solution of the program of a source, on whatever scale that is accepted, lists each error that
/// occurs in an allowed run of the source.
pub fn reports_list_all()
    ensures { ReportsListAll }
{}
