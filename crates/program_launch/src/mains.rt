// The main method.
ghost use Rattle.std.specs.Prelude.{◌≡◌, ◌≤◌, ◌<◌, ◌^◌, length, IfOk};
ghost use Rattle.class_set.specs.Facts.{facts_of};
ghost use Rattle.plain_model.specs.Duties.{IsClass};
ghost use Rattle.class_code.specs.Methods.{first_method};
ghost use Rattle.program_launch.specs.Mains.{main_of};

use class_set::ClassSet;

/// What runs first: the number of the main class, and the number of its `main` among the methods of the decoded tables.
#[derive(Clone, Copy, Debug, PartialEq, Eq)]
pub struct Main {
    pub class: u32,
    pub method: u32,
}

/// Why there is none: the set has no class of this name, or no static `main([Ljava/lang/String;)V` is found from it on.
#[derive(Clone, Copy, Debug, PartialEq, Eq)]
pub enum NoMain {
    Class,
    Method,
}

/// The number of the first method of a file's class.
fn first_method(set: &ClassSet, class: u32) -> u32
    requires { class ≤ length set.now.files }
    ensures number { result ≡ first_method set.now class }
    ensures few { result < 2 ^ 28 }
{
    let _count = set.file_count();
    let files = set.files();
    let mut methods: u32 = 0;
    for before in 0..class as usize {
        methods += files[before].methods.len() as u32;
    }
    methods
}

/// What runs first in a set: the class of this name, and the method `main([Ljava/lang/String;)V` that the look-up from this
/// class on finds (JVMS 5.2, 5.4.3.3; superinterfaces aren't looked through). It needn't have code: a `main` without code is
/// found, and to run it is a fault of the run.
///
/// # Errors
///
/// `Class` exactly where the set has no class of this name, `Method` exactly where the look-up finds no static method.
pub fn find_main(set: &ClassSet, name: &[u8]) -> Result<Main, NoMain>
    ensures found { result ≡ main_of set.now name.now }
    ensures there { IfOk result (λ main. IsClass (facts_of set.now) main.class) }
{
    let Some(class) = set.class_named(name) else {
        return Err(NoMain::Class);
    };
    let Some(main) = set.find_method(class, b"main", b"([Ljava/lang/String;)V") else {
        return Err(NoMain::Method);
    };
    if !main.is_static {
        return Err(NoMain::Method);
    }
    let _count = set.file_count();
    Ok(Main {
        class,
        method: first_method(set, main.class) + main.method,
    })
}
