// The `main` with which a run begins, by its class.
ghost use Rattle.std.specs.Prelude.{◌≡◌, ◌<◌, ◌≤◌, ◌^◌, length};
ghost use Rattle.class_code.specs.Methods.{first_method};
ghost use Rattle.program_launch.specs.declared.mains.Main.{Main as MainOf};
ghost use Rattle.audit_runs.specs.Audits.{IsMainOf};

use class_set::ClassSet;
use program_launch::Main;

/// The number of the first method of a file's class.
fn first_method(set: &ClassSet, class: u32) -> u32
    requires { class ≤ length set.now.files }
    ensures number { result ≡ first_method set.now class }
    ensures few { result < 2 ^ 28 }
{
    let _count = set.file_count();
    let files = set.files();
    let mut methods: u32 = 0;
    for before in 0..class as usize {
        methods += files[before].methods.len() as u32;
    }
    methods
}

/// What the look-up of a static `main([Ljava/lang/String;)V` from a class on finds (JVMS 5.4.3.3).
pub(crate) fn main_from(set: &ClassSet, class: u32) -> Main
    requires main { (main : MainOf) × IsMainOf set.now class main }
    ensures { IsMainOf set.now class result }
{
    let found = set
        .find_method(class, b"main", b"([Ljava/lang/String;)V")
        .unwrap();
    let _count = set.file_count();
    Main {
        class,
        method: first_method(set, found.class) + found.method,
    }
}
