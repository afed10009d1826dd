//! Commands with their files.
ghost use Rattle.std.specs.Prelude.{◌≡◌, map, length, string_bytes};
ghost use Rattle.acc_commands_inputs.specs.Words.{file_count, point_count};
ghost use Rattle.acc_commands_inputs.specs.Requests.{command_in, texts_in, points_in, certified_texts, scheduled_texts};

use crate::scales::{AskedScale, Mix};
use crate::words::Command;
use acc_base::designs::Side;

/// The bytes of a design, of a script of its calls, and of an order of their turns.
#[derive(Clone, Copy)]
pub struct PlayFiles<'a> {
    pub design: &'a [u8],
    pub script: &'a [u8],
    pub order: &'a [u8],
}

/// The bytes of a design, and of the certificate by which it is to be accepted.
#[derive(Clone, Copy)]
pub struct CertifiedFiles<'a> {
    pub design: &'a [u8],
    pub certificate: &'a [u8],
}

impl<'a> CertifiedFiles<'a> {
    fn new(files: &'a [Vec<u8>]) -> Self
        requires { length files.now ≡ 2 }
        ensures { certified_texts result ≡ map (λ v. v.items) files.now }
    {
        CertifiedFiles {
            design: &files[0],
            certificate: &files[1],
        }
    }
}

/// The bytes of a design, of its certificate, of a script of its calls, and of an order of their turns.
#[derive(Clone, Copy)]
pub struct ScheduleFiles<'a> {
    pub design: &'a [u8],
    pub certificate: &'a [u8],
    pub script: &'a [u8],
    pub order: &'a [u8],
}

impl<'a> ScheduleFiles<'a> {
    fn new(files: &'a [Vec<u8>]) -> Self
        requires { length files.now ≡ 4 }
        ensures { scheduled_texts result ≡ map (λ v. v.items) files.now }
    {
        ScheduleFiles {
            design: &files[0],
            certificate: &files[1],
            script: &files[2],
            order: &files[3],
        }
    }
}

/// The bytes of a design, of its certificate, and of a script of its calls.
#[derive(Clone, Copy)]
pub struct WorkerFiles<'a> {
    pub design: &'a [u8],
    pub certificate: &'a [u8],
    pub script: &'a [u8],
}

/// The bytes of a design, and the words that name a held point of it and the point of a step, each as TYPE.POINT.
#[derive(Clone, Copy)]
pub struct AdviceFiles<'a> {
    pub design: &'a [u8],
    pub held: &'a str,
    pub step: &'a str,
}

/// The bytes of a design, and of a journal.
#[derive(Clone, Copy)]
pub struct AuditFiles<'a> {
    pub design: &'a [u8],
    pub journal: &'a [u8],
}

/// The bytes of a design, of its certificate, and of a journal that is followed.
#[derive(Clone, Copy)]
pub struct FollowFiles<'a> {
    pub design: &'a [u8],
    pub certificate: &'a [u8],
    pub copy: &'a [u8],
}

/// The bytes of a design, of its certificate, and of a journal whose events another one is to be made of.
#[derive(Clone, Copy)]
pub struct MigrationFiles<'a> {
    pub design: &'a [u8],
    pub certificate: &'a [u8],
    pub old: &'a [u8],
}

/// A command with the bytes of its files: of a design alone, or of one with others.
#[derive(Clone, Copy)]
pub enum Request<'a> {
    Play(PlayFiles<'a>),
    Rehearse(ScheduleFiles<'a>),
    Print(&'a [u8]),
    Draw(&'a [u8]),
    Check(CertifiedFiles<'a>),
    Prove(&'a [u8]),
    /// With the side of the step.
    Advise(AdviceFiles<'a>, Side),
    Audit(AuditFiles<'a>),
    /// With how many bytes a piece has.
    Follow(FollowFiles<'a>, u64),
    Init(&'a [u8]),
    Sched(ScheduleFiles<'a>),
    /// With how many workers there are.
    Run(WorkerFiles<'a>, u64),
    Recover(CertifiedFiles<'a>),
    Dump(CertifiedFiles<'a>),
    Replies(CertifiedFiles<'a>),
    Verify(CertifiedFiles<'a>),
    Migrate(MigrationFiles<'a>),
    TpccDesign,
    BookingDesign,
    BookingVerify(CertifiedFiles<'a>),
    TpccLoad(AskedScale),
    TpccMix(Mix),
    /// With the numbers of its mix.
    Bench(CertifiedFiles<'a>, Mix),
    Help,
    Version,
}

impl<'a> Request<'a> {
    /// The command with its files, and the words that name points, as many as it has of each.
    #[tactic(auto, unfolding(crate::specs::Words::file_count, crate::specs::Words::point_count))]
    pub fn new(command: Command, files: &'a [Vec<u8>], points: &'a [String]) -> Self
        requires files { length files.now ≡ file_count command }
        requires points { length points.now ≡ point_count command }
        ensures command { command_in result ≡ command }
        ensures texts { texts_in result ≡ map (λ v. v.items) files.now }
        ensures points { points_in result ≡ map string_bytes points.now }
    {
        match command {
            Command::Play => Request::Play(PlayFiles {
                design: &files[0],
                script: &files[1],
                order: &files[2],
            }),
            Command::Rehearse => Request::Rehearse(ScheduleFiles::new(files)),
            Command::Print => Request::Print(&files[0]),
            Command::Draw => Request::Draw(&files[0]),
            Command::Check => Request::Check(CertifiedFiles::new(files)),
            Command::Prove => Request::Prove(&files[0]),
            Command::Advise(side) => Request::Advise(
                AdviceFiles {
                    design: &files[0],
                    held: points[0].as_str(),
                    step: points[1].as_str(),
                },
                side,
            ),
            Command::Audit => Request::Audit(AuditFiles {
                design: &files[0],
                journal: &files[1],
            }),
            Command::Follow(size) => Request::Follow(
                FollowFiles {
                    design: &files[0],
                    certificate: &files[1],
                    copy: &files[2],
                },
                size,
            ),
            Command::Init => Request::Init(&files[0]),
            Command::Sched => Request::Sched(ScheduleFiles::new(files)),
            Command::Run(workers) => Request::Run(
                WorkerFiles {
                    design: &files[0],
                    certificate: &files[1],
                    script: &files[2],
                },
                workers,
            ),
            Command::Recover => Request::Recover(CertifiedFiles::new(files)),
            Command::Dump => Request::Dump(CertifiedFiles::new(files)),
            Command::Replies => Request::Replies(CertifiedFiles::new(files)),
            Command::Verify => Request::Verify(CertifiedFiles::new(files)),
            Command::Migrate => Request::Migrate(MigrationFiles {
                design: &files[0],
                certificate: &files[1],
                old: &files[2],
            }),
            Command::TpccDesign => Request::TpccDesign,
            Command::BookingDesign => Request::BookingDesign,
            Command::BookingVerify => Request::BookingVerify(CertifiedFiles::new(files)),
            Command::TpccLoad(scale) => Request::TpccLoad(scale),
            Command::TpccMix(mix) => Request::TpccMix(mix),
            Command::Bench(mix) => Request::Bench(CertifiedFiles::new(files), mix),
            Command::Help => Request::Help,
            Command::Version => Request::Version,
        }
    }
}
